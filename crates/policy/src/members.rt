// A small set of numbers: the consoles that one console may affect, or the commands that are locked.
ghost use Rattle.std.specs.Prelude.{◌≡◌, ℕ, true, false, not, ◌&&◌, ◌||◌, ◌==◌, nat_lt};
ghost use Rattle.policy.specs.Members.{holds};

// how many numbers a set has room for
const ROOM: usize = 32;

// A set of numbers below 32, a bit for each. It is one word, so that it is copied and put back whole.
#[derive(Clone, Copy, PartialEq, Eq, Debug, Default)]
pub struct Members {
    word: u32,
}

impl Members {
    pub fn none() -> Members
        ensures { (j : ℕ) → holds result j ≡ false }
    {
        Members::default()
    }

    #[tactic(auto, using(std::proofs::lemmas::Nat::Bits::shr_and_one))]
    pub fn has(self, number: usize) -> bool
        ensures { result ≡ holds self number }
    {
        number < ROOM && (self.word >> number) & 1 == 1
    }

    // A number from 32 on has no place, and is left off.
    #[tactic(auto, using(crate::proofs::Bits::set_with))]
    pub fn with(self, number: usize) -> Members
        ensures { (j : ℕ) → holds result j ≡ (holds self j || (j == number && nat_lt j 32)) }
    {
        if number >= ROOM {
            return self;
        }
        Members {
            word: self.word | (1 << number),
        }
    }

    #[tactic(auto, using(crate::proofs::Bits::set_without))]
    pub fn without(self, number: usize) -> Members
        ensures { (j : ℕ) → holds result j ≡ (holds self j && not (j == number)) }
    {
        if number >= ROOM {
            return self;
        }
        Members {
            word: self.word & !(1 << number),
        }
    }
}
