// P, the plain purge: a command counts for a console where its own console may affect that one.
ghost use Rattle.links.specs.Purge.{purge};
ghost use Rattle.links.specs.Three.{purge_meaning};
ghost use Rattle.links.proofs.Purging.{purge_laws};

use crate::compared::Compared;
use crate::meaning::Meaning;
use crate::purging::{Purging, same_remains};
use crate::range::all_there;
use crate::reach::Reach;
use policy::flows::Flows;

#[derive(Clone, Copy)]
pub struct Purge;

impl Purging for Purge {
    ghost purge = { purge };

    // Nothing is kept: what counts of the left is met with what counts of the right, one by one.
    fn same_left(reach: &Reach, console: usize, left: &Compared, right: &Compared) -> bool {
        let heard = reach.heard(console);
        let counts = |command: &&u8| heard.has(reach.giver(**command));
        left.commands
            .iter()
            .filter(counts)
            .eq(right.commands.iter().filter(counts))
    }
}

impl Meaning for Purge {
    ghost meaning = { λ _. purge_meaning };

    ghost lawful = { λ x. purge_laws };

    fn alike(
        &self,
        flows: &Flows,
        owners: &[u8],
        console: usize,
        left: &[u8],
        right: &[u8],
    ) -> bool {
        same_remains::<Purge>(&Reach { flows, owners }, console, left, right)
    }

    fn may_drop(&self, flows: &Flows, console: usize, dropped: usize) -> bool {
        all_there(flows, &[console, dropped]) && !flows.may_affect(dropped, console)
    }

    fn may_follow_drop(
        &self,
        flows: &Flows,
        console: usize,
        dropped: usize,
        follower: usize,
    ) -> bool {
        all_there(flows, &[console, dropped, follower])
    }

    fn may_exchange(&self, _flows: &Flows, _console: usize, _first: usize, _second: usize) -> bool {
        false
    }

    // There is no exchange that a command could come after.
    fn may_follow_exchange(
        &self,
        flows: &Flows,
        console: usize,
        first: usize,
        second: usize,
        _follower: usize,
    ) -> bool {
        self.may_exchange(flows, console, first, second)
    }
}
