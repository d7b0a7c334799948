// The consoles of a board that pass a test, as a set.
ghost use Rattle.std.specs.Prelude.{◌≡◌, ℕ, ◌<◌, ◌≤◌, false};
ghost use Rattle.policy.specs.Flows.{consoles_of};
ghost use Rattle.policy.specs.Members.{holds};

use policy::flows::Flows;
use policy::members::Members;

pub(crate) fn consoles_where<F: Fn(usize) -> bool>(flows: &Flows, test: F) -> Members
    requires { F.IsAlwaysCallable test }
    ensures passing { (x : ℕ) → x < consoles_of flows.now → F.post test x (holds result x) }
    ensures within { (x : ℕ) → consoles_of flows.now ≤ x → holds result x ≡ false }
{
    let mut passing = Members::none();
    for console in 0..flows.consoles() {
        if test(console) {
            passing = passing.with(console);
        }
    }
    passing
}
