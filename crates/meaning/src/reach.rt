// Who gives each command, which consoles a command reaches, and which a console hears.
ghost use Rattle.std.specs.Prelude.{◌≡◌, ℕ, ◌<◌, is_some, IfSome};
ghost use Rattle.policy.specs.Flows.{consoles_of};
ghost use Rattle.policy.specs.Members.{holds};
ghost use Rattle.meaning.specs.Compared.{both_comparable};
ghost use Rattle.meaning.specs.Reach.{flow_of, giver_of};

use crate::compared::Compared;
use crate::consoles::consoles_where;
use control::reading::all_below;
use policy::flows::Flows;
use policy::members::Members;

// Command c is given by console `owners[c]`. The console that is asked about is no field: the table
// of TA is about all consoles at once.
#[derive(Clone, Copy)]
pub(crate) struct Reach<'a> {
    pub(crate) flows: &'a Flows,
    pub(crate) owners: &'a [u8],
}

impl<'a> Reach<'a> {
    // The console of a command; a command that there is not is read as one of console 0.
    pub(crate) fn giver(&self, command: u8) -> usize
        ensures { result ≡ giver_of self.now command }
    {
        self.owners
            .get(usize::from(command))
            .map_or(0, |console| usize::from(*console))
    }

    // Whether the giver of a command may affect `console`.
    pub(crate) fn reaches(&self, command: u8, console: usize) -> bool
        ensures { result ≡ flow_of self.now (giver_of self.now command) console }
    {
        self.flows.may_affect(self.giver(command), console)
    }

    // The consoles that may affect `console`.
    pub(crate) fn heard(&self, console: usize) -> Members
        ensures { (x : ℕ) → holds result x ≡ flow_of self.now x console }
    {
        consoles_where(self.flows, |from| self.flows.may_affect(from, console))
    }

    // Both sequences, where console, owners and commands are all there and neither is too long.
    pub(crate) fn compared(
        &self,
        console: usize,
        left: &'a [u8],
        right: &'a [u8],
    ) -> Option<(Compared<'a>, Compared<'a>)>
        ensures in_range { is_some result ≡ both_comparable self.now console left.now right.now }
        ensures there { IfSome result (λ _. console < consoles_of self.now.flows.now) }
        ensures whole { IfSome result (λ both. (both.0.commands.now ≡ left.now) × (both.1.commands.now ≡ right.now)) }
    {
        let consoles = self.flows.consoles();
        if console >= consoles || !all_below(consoles, self.owners) {
            return None;
        }
        let left = Compared::new(self.owners.len(), left)?;
        let right = Compared::new(self.owners.len(), right)?;
        Some((left, right))
    }
}
