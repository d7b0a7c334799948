// Tenths of a degree from a count, where it is in range.
ghost use Rattle.std.specs.Prelude.{◌≡◌, Ok, Err};
ghost use Rattle.mark.specs.declared.cause.Cause.TheVariants.{OutOfRange};
ghost use Rattle.display.specs.Readings.{tenths_when};

use crate::reading::Tenths;
use mark::cause::Cause;

// The range of a reading, in tenths of a degree Celsius.
const LEAST: i64 = -1200;

const MOST: i64 = 1200;

impl TryFrom<i64> for Tenths {
    type Error = Cause;

    ghost try_from_gives = { λ z r. r ≡ tenths_when z Ok (Err OutOfRange) };

    fn try_from(count: i64) -> Result<Tenths, Cause> {
        if count < LEAST || count > MOST {
            return Err(Cause::OutOfRange);
        }
        Ok(Tenths {
            count: count as i16,
        })
    }
}
