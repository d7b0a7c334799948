// TA, the order-aware meaning: two sequences are alike where a console was told the same of both, in the same order.
ghost use Rattle.std.specs.Prelude.{◌≡◌, ℕ, ◌+◌, ◌<◌, ◌≤◌, true, List, [], ◌∷◌, ◌++◌, length, not, ◌&&◌};
ghost use Rattle.policy.specs.Flows.{consoles_of};
ghost use Rattle.policy.specs.Members.{holds};
ghost use Rattle.links.specs.Three.{transmitted_meaning};
ghost use Rattle.meaning.specs.Agreeing.{corner_alike, AgreeingSet, RowOf, Known};
ghost use Rattle.meaning.specs.Reach.{flow_of, giver_of};
ghost use Rattle.links.proofs.Transmitting.{transmitted_laws};

use crate::compared::{Compared, MOST_COMPARED};
use crate::consoles::consoles_where;
use crate::intransitive_purge::IntransitivePurge;
use crate::meaning::Meaning;
use crate::range::all_there;
use crate::reach::Reach;
use arrayvec::ArrayVec;
use policy::flows::Flows;
use policy::members::Members;

#[derive(Clone, Copy)]
pub struct TransmittedActions;

// A sequence has one prefix more than commands.
const MOST_PREFIXES: usize = MOST_COMPARED + 1;

// What a console was told grows without bound, so none of it is built. A table over the prefixes
// of both sequences holds who was told the same; a row of it is for one prefix of the left, with a
// place for each prefix of the right.
type Row = ArrayVec<Members, MOST_PREFIXES>;

// A place of the table where `left` and `right` end the two prefixes, and its neighbours: without
// the last command of the left, of the right, and of both.
#[derive(Clone, Copy)]
struct Corner {
    left: u8,
    right: u8,
    above: Members,
    beside: Members,
    across: Members,
}

impl<'a> Reach<'a> {
    fn everyone(&self) -> Members
        ensures { (x : ℕ) → x < consoles_of self.now.flows.now → holds result x ≡ true }
    {
        consoles_where(self.flows, |_| true)
    }

    // The consoles of a set that a command does not reach.
    fn unreached(&self, command: u8, consoles: Members) -> Members
        ensures { (x : ℕ) → x < consoles_of self.now.flows.now → holds result x ≡ (holds consoles x && not (flow_of self.now (giver_of self.now command) x)) }
    {
        consoles_where(
            self.flows,
            |console| consoles.has(console) && !self.reaches(command, console),
        )
    }

    // Whether `console` is told the same at a corner. A last command that does not reach it makes
    // no difference; two that do have to be one command, given by a console that was told the same.
    fn agrees(&self, corner: Corner, console: usize) -> bool
        ensures { result ≡ corner_alike self.now corner console }
    {
        if !self.reaches(corner.left, console) {
            return corner.above.has(console);
        }
        if !self.reaches(corner.right, console) {
            return corner.beside.has(console);
        }
        corner.left == corner.right
            && corner.across.has(console)
            && corner.across.has(self.giver(corner.left))
    }

    // The consoles that are told the same at a corner.
    fn agreeing_at(&self, corner: Corner) -> Members
        ensures { (p q : List ℕ) → Known self.now p q corner → AgreeingSet self.now (p ++ (corner.left ∷ [])) (q ++ (corner.right ∷ [])) result }
    {
        consoles_where(self.flows, |console| self.agrees(corner, console))
    }

    // The row before any command of the left.
    fn first_row(&self, right: &Compared) -> Row
        ensures places { length result.items ≡ length right.now.commands.now + 1 }
        ensures sets { RowOf self.now [] right.now.commands.now result.items }
    {
        let mut row = Row::new();
        let mut agreeing = self.everyone();
        row.push(agreeing);
        for command in right.commands {
            agreeing = self.unreached(*command, agreeing);
            row.push(agreeing);
        }
        row
    }

    // The row with one command more of the left, made of the row before it.
    fn next_row(&self, command: u8, right: &Compared, before: &[Members]) -> Row
        requires { length before.now ≡ length right.now.commands.now + 1 }
        ensures places { length result.items ≡ length right.now.commands.now + 1 }
        ensures sets { (p : List ℕ) → RowOf self.now p right.now.commands.now before.now → RowOf self.now (p ++ (command ∷ [])) right.now.commands.now result.items }
    {
        let mut row = Row::new();
        let mut across = before[0];
        let mut beside = self.unreached(command, across);
        row.push(beside);
        for (other, above) in right.commands.iter().zip(&before[1..]) {
            beside = self.agreeing_at(Corner {
                left: command,
                right: *other,
                above: *above,
                beside,
                across,
            });
            row.push(beside);
            across = *above;
        }
        row
    }

    // The consoles that were told the same of both sequences.
    fn agreeing_on(&self, left: &Compared, right: &Compared) -> Members
        ensures { AgreeingSet self.now left.now.commands.now right.now.commands.now result }
    {
        let mut row = self.first_row(right);
        for command in left.commands {
            row = self.next_row(*command, right, &row);
        }
        row[right.commands.len()]
    }
}

impl Meaning for TransmittedActions {
    ghost meaning = { λ _. transmitted_meaning };

    ghost lawful = { λ x. transmitted_laws };

    fn alike(
        &self,
        flows: &Flows,
        owners: &[u8],
        console: usize,
        left: &[u8],
        right: &[u8],
    ) -> bool {
        let reach = Reach { flows, owners };
        match reach.compared(console, left, right) {
            Some((left, right)) => reach.agreeing_on(&left, &right).has(console),
            None => false,
        }
    }

    fn may_drop(&self, flows: &Flows, console: usize, dropped: usize) -> bool {
        IntransitivePurge.may_drop(flows, console, dropped)
    }

    fn may_follow_drop(
        &self,
        flows: &Flows,
        console: usize,
        dropped: usize,
        follower: usize,
    ) -> bool {
        IntransitivePurge.may_follow_drop(flows, console, dropped, follower)
    }

    fn may_exchange(&self, flows: &Flows, console: usize, first: usize, second: usize) -> bool {
        all_there(flows, &[console, first, second])
            && first != second
            && !flows.may_affect(first, second)
            && !flows.may_affect(second, first)
            && !(flows.may_affect(first, console) && flows.may_affect(second, console))
    }

    fn may_follow_exchange(
        &self,
        flows: &Flows,
        console: usize,
        first: usize,
        second: usize,
        follower: usize,
    ) -> bool {
        all_there(flows, &[console, first, second, follower])
            && !(flows.may_affect(first, follower) && flows.may_affect(second, follower))
    }
}
