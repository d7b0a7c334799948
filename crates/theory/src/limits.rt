// How large a control, a board and a sheet may be.

// the most states of a control
pub const MOST_STATES: usize = 100;

// the most commands of a control or a board
pub const MOST_COMMANDS: usize = 24;

// the most consoles of a control or a board
pub const MOST_CONSOLES: usize = 12;

// the most bytes of a sheet
pub const MOST_SHEET_BYTES: usize = 40960;
