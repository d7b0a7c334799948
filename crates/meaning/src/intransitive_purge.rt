// IP, the intransitive purge: a command counts for a console where the commands after it can still carry it there.
ghost use Rattle.std.specs.Prelude.{◌≡◌, ℕ, ◌<◌, ◌&&◌, List};
ghost use Rattle.std.specs.List.{list_any, range_with_len};
ghost use Rattle.policy.specs.Flows.{consoles_of, may_affect};
ghost use Rattle.policy.specs.Members.{holds};
ghost use Rattle.links.specs.Sources.{intransitive_purge};
ghost use Rattle.links.specs.Three.{intransitive_purge_meaning};
ghost use Rattle.meaning.specs.Reach.{flow_of, giver_of};
ghost use Rattle.meaning.specs.Sets.{SetOf, source_added};
ghost use Rattle.links.proofs.Sourcing.{intransitive_purge_laws};

use crate::compared::{Compared, MOST_COMPARED};
use crate::meaning::Meaning;
use crate::purge::Purge;
use crate::purging::{Purging, same_remains};
use crate::reach::Reach;
use arrayvec::ArrayVec;
use policy::flows::Flows;
use policy::members::Members;

#[derive(Clone, Copy)]
pub struct IntransitivePurge;

// The commands that the purge keeps of a sequence, in their order.
type Kept = ArrayVec<u8, MOST_COMPARED>;

// Whether `from` may affect one of the consoles of a set.
fn affects_one(flows: &Flows, from: usize, consoles: Members) -> bool
    ensures { result ≡ list_any (λ x. holds consoles x && may_affect flows.now from x) (range_with_len 0 (consoles_of flows.now)) }
{
    (0..flows.consoles()).any(|console| consoles.has(console) && flows.may_affect(from, console))
}

// The sources with a command of `from` in front of what follows.
fn with_source(flows: &Flows, from: usize, sources: Members) -> Members
    ensures { (s : List ℕ) → SetOf s sources → SetOf (source_added (may_affect flows.now) from s) result }
{
    if affects_one(flows, from, sources) {
        sources.with(from)
    } else {
        sources
    }
}

// From the back: the sources are the consoles from which what follows can carry a command on.
fn purged(reach: &Reach, console: usize, sequence: &Compared) -> Kept
    requires { console < consoles_of reach.now.flows.now }
    ensures { result.items ≡ intransitive_purge (flow_of reach.now) (giver_of reach.now) console sequence.now.commands.now }
{
    let mut kept = Kept::new();
    let mut sources = Members::none().with(console);
    for command in sequence.commands.iter().rev() {
        let giver = reach.giver(*command);
        sources = with_source(reach.flows, giver, sources);
        if sources.has(giver) {
            kept.push(*command);
        }
    }
    kept.reverse();
    kept
}

impl Purging for IntransitivePurge {
    ghost purge = { intransitive_purge };

    fn same_left(reach: &Reach, console: usize, left: &Compared, right: &Compared) -> bool {
        purged(reach, console, left) == purged(reach, console, right)
    }
}

impl Meaning for IntransitivePurge {
    ghost meaning = { λ _. intransitive_purge_meaning };

    ghost lawful = { λ x. intransitive_purge_laws };

    fn alike(
        &self,
        flows: &Flows,
        owners: &[u8],
        console: usize,
        left: &[u8],
        right: &[u8],
    ) -> bool {
        same_remains::<IntransitivePurge>(&Reach { flows, owners }, console, left, right)
    }

    fn may_drop(&self, flows: &Flows, console: usize, dropped: usize) -> bool {
        Purge.may_drop(flows, console, dropped)
    }

    fn may_follow_drop(
        &self,
        flows: &Flows,
        console: usize,
        dropped: usize,
        follower: usize,
    ) -> bool {
        Purge.may_follow_drop(flows, console, dropped, follower)
            && !flows.may_affect(dropped, follower)
    }

    fn may_exchange(&self, flows: &Flows, console: usize, first: usize, second: usize) -> bool {
        Purge.may_exchange(flows, console, first, second)
    }

    fn may_follow_exchange(
        &self,
        flows: &Flows,
        console: usize,
        first: usize,
        second: usize,
        follower: usize,
    ) -> bool {
        Purge.may_follow_exchange(flows, console, first, second, follower)
    }
}
