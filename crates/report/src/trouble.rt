// Why a text was not made: a refusal, or want of memory.
ghost use Rattle.std.specs.Prelude.{◌≡◌};
ghost use Rattle.report.specs.declared.trouble.Trouble.TheVariants.{Refused, Memory};

use policy::refusal::Refusal;
use std::alloc::AllocError;
use std::io;

#[derive(Clone, Copy, PartialEq, Eq, Debug)]
pub enum Trouble {
    Refused(Refusal),
    Memory,
}

impl From<Refusal> for Trouble {
    ghost from_gives = { λ e r. r ≡ Refused e };

    fn from(refusal: Refusal) -> Trouble {
        Trouble::Refused(refusal)
    }
}

impl From<AllocError> for Trouble {
    ghost from_gives = { λ _ r. r ≡ Memory };

    fn from(_error: AllocError) -> Trouble {
        Trouble::Memory
    }
}

// Writing into a text fails for want of memory alone.
impl From<io::Error> for Trouble {
    ghost from_gives = { λ _ r. r ≡ Memory };

    fn from(_error: io::Error) -> Trouble {
        Trouble::Memory
    }
}
