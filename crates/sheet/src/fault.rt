// Faults in a sheet: a mark's inside a row's inside a sheet's, each layer keeping the one below whole.
ghost use Rattle.std.specs.Prelude.{◌≡◌};
ghost use Rattle.sheet.specs.Calls.{refusal_of};
ghost use Rattle.sheet.specs.Faults.{mark_fault, row_fault};

use mark::cause::Cause;
use policy::refusal::Refusal;

// Why, and where as a byte offset.
#[derive(Clone, Copy, PartialEq, Eq, Debug)]
pub struct MarkFault {
    pub cause: Cause,
    pub place: usize,
}

// And on which line, counted from 1.
#[derive(Clone, Copy, PartialEq, Eq, Debug)]
pub struct RowFault {
    pub mark: MarkFault,
    pub line: usize,
}

// And in which block, counted from 1.
#[derive(Clone, Copy, PartialEq, Eq, Debug)]
pub struct SheetFault {
    pub row: RowFault,
    pub block: usize,
}

impl MarkFault {
    // The cause at its place.
    pub fn at(cause: Cause, place: usize) -> MarkFault
        ensures { result ≡ mark_fault cause place }
    {
        MarkFault { cause, place }
    }

    // The fault on its line.
    pub fn on_line(self, line: usize) -> RowFault
        ensures { result ≡ row_fault line self }
    {
        RowFault { mark: self, line }
    }
}

impl RowFault {
    // The fault in its block.
    pub fn in_block(self, block: usize) -> SheetFault
        ensures { result ≡ record { row = self; block = block } }
    {
        SheetFault { row: self, block }
    }
}

impl From<SheetFault> for Refusal {
    ghost from_gives = { λ f r. r ≡ refusal_of f };

    fn from(fault: SheetFault) -> Refusal {
        let mark = fault.row.mark;
        Refusal::Fault {
            cause: mark.cause,
            place: mark.place,
            line: fault.row.line,
            block: fault.block,
        }
    }
}
