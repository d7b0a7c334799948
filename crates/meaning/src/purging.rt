// Meanings under which two sequences are alike where a purge leaves the same of both.
ghost use Rattle.std.specs.Prelude.{◌≡◌, ℕ, ◌<◌, List};
ghost use Rattle.theory.specs.Flows.{Flow};
ghost use Rattle.policy.specs.Flows.{consoles_of};
ghost use Rattle.links.specs.Sequences.{same_sequence};
ghost use Rattle.meaning.specs.Compared.{same_purged};
ghost use Rattle.meaning.specs.Reach.{flow_of, giver_of};

use crate::compared::Compared;
use crate::reach::Reach;

pub(crate) trait Purging {
    ghost purge: { Flow → (ℕ → ℕ) → ℕ → List ℕ → List ℕ };

    // Whether the same is left of both sequences for `console`.
    fn same_left(reach: &Reach, console: usize, left: &Compared, right: &Compared) -> bool
        requires { console < consoles_of reach.now.flows.now }
        ensures { result ≡ same_sequence (purge (flow_of reach.now) (giver_of reach.now) console left.now.commands.now) (purge (flow_of reach.now) (giver_of reach.now) console right.now.commands.now) };
}

// Whether both sequences can be compared, and the purge leaves the same of both.
pub(crate) fn same_remains<P: Purging>(
    reach: &Reach,
    console: usize,
    left: &[u8],
    right: &[u8],
) -> bool
    ensures { result ≡ same_purged P.purge reach.now console left.now right.now }
{
    match reach.compared(console, left, right) {
        Some((left, right)) => P::same_left(reach, console, &left, &right),
        None => false,
    }
}
