// Only what was written is read: a sheet that is written is read as what it was written from, and
// the reader accepts no other sheet.
ghost use Rattle.sheet.specs.Exact.{WrittenIsRead, ReadIsWritten, SheetsFit};

use display::kind::DisplayKind;

// Every sheet of a control and its flows is read, as that control and those flows.
pub fn written_is_read<D: DisplayKind>()
    ensures { WrittenIsRead D.kind D.marked D.reads }
{}

// Whatever is read is, byte for byte, the sheet of the control and the flows that it is read as.
pub fn read_is_written<D: DisplayKind>()
    ensures { ReadIsWritten D.kind D.marked D.reads }
{}

// No sheet of a control is longer than a sheet may be.
pub fn sheets_fit<D: DisplayKind>()
    ensures { SheetsFit D.kind D.marked }
{}
