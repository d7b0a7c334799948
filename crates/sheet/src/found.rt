// What a sheet was read as.
use control::table::Counts;
use policy::board::Board;

// The counts and the start of the sheet's control, and a board with the sheet's flows and no
// lockout; the tables are in the store.
#[derive(Clone, Copy)]
pub struct Found {
    pub counts: Counts,
    pub start: usize,
    pub board: Board,
}
