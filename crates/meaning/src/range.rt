// The range check that stands before each question on consoles.
ghost use Rattle.std.specs.Prelude.{◌≡◌, nat_lt};
ghost use Rattle.std.specs.List.{list_all};
ghost use Rattle.policy.specs.Flows.{consoles_of};

use policy::flows::Flows;

// Whether there is a console of each of the numbers.
pub(crate) fn all_there(flows: &Flows, consoles: &[usize]) -> bool
    ensures { result ≡ list_all (λ u. nat_lt u (consoles_of flows.now)) consoles.now }
{
    consoles.iter().all(|console| *console < flows.consoles())
}
