// Codes from numbers, where they are in range.
ghost use Rattle.std.specs.Prelude.{◌≡◌, Ok, Err};
ghost use Rattle.mark.specs.declared.cause.Cause.TheVariants.{OutOfRange};
ghost use Rattle.display.specs.Codes.{code_stored, code_when};

use crate::code::Code;
use mark::cause::Cause;

impl From<u16> for Code {
    ghost from_gives = { λ n x. x ≡ code_stored n };

    fn from(number: u16) -> Code {
        Code { number }
    }
}

impl TryFrom<u32> for Code {
    type Error = Cause;

    ghost try_from_gives = { λ n r. r ≡ code_when n Ok (Err OutOfRange) };

    fn try_from(number: u32) -> Result<Code, Cause> {
        u16::try_from(number)
            .map(Code::from)
            .or(Err(Cause::OutOfRange))
    }
}
