// Which kind of display a sheet names that was refused as one of codes.
ghost use Rattle.std.specs.Prelude.{◌≡◌};
ghost use Rattle.sheet.specs.Kinds.{readings_named};

use crate::heading::{COUNTS_BLOCK, COUNTS_LINE};
use crate::marks::run_of;
use mark::cause::Cause;
use policy::refusal::Refusal;

// Whether the refusal is that of a mark that is not due in the row of the counts, where readings are
// named. Such a name before the place of the kind is refused in the same way again, as whatever it is
// read.
pub fn names_readings(sheet: &[u8], refusal: Refusal) -> bool
    ensures { result ≡ readings_named sheet.now refusal }
{
    match refusal {
        Refusal::Fault {
            cause: Cause::NotDue,
            place,
            line: COUNTS_LINE,
            block: COUNTS_BLOCK,
        } if place <= sheet.len() => run_of(&sheet[place..]) == b"reading".as_slice(),
        _ => false,
    }
}
