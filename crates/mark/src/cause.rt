// Why a run of bytes is turned down where a mark is due.

// Each cause has the number of the refusal that tells it.
#[derive(Clone, Copy, PartialEq, Eq, Debug)]
pub enum Cause {
    // the run is no mark at all, as 07
    NoMark = 3,
    // a mark, but not the one that is due
    NotDue = 4,
    // a number, but out of range
    OutOfRange = 5,
    // the sheet ends where a mark or a byte is due
    EndsEarly = 6,
}
