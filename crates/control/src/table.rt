// A control that is a table over a store that the caller lends.
ghost use Rattle.std.specs.Prelude.{◌≡◌, map, length, is_ok, IfOk, IfErr, slice_index, slice_index_or};
ghost use Rattle.policy.specs.declared.refusal.Refusal.TheVariants.{TableStoreTooSmall};
ghost use Rattle.control.specs.Tables.{contents, contents_of, store_suffices, table_value, table_lawful};

use crate::control::Control;
use crate::reading::{read_count, read_number};
use display::kind::DisplayKind;
use policy::refusal::Refusal;
use theory::limits::{MOST_COMMANDS, MOST_CONSOLES, MOST_STATES};

// the fewest steps that a table's store has room for
pub const STEPS: usize = MOST_STATES * MOST_COMMANDS;

// the fewest consoles of commands
pub const OWNERS: usize = MOST_COMMANDS;

// the fewest displays
pub const DISPLAYS: usize = MOST_STATES * MOST_CONSOLES;

// The three counts of a control.
#[derive(Clone, Copy, PartialEq, Eq, Debug)]
pub struct Counts {
    pub states: usize,
    pub commands: usize,
    pub consoles: usize,
}

// The store of a table, lent by the caller: a refusal speaks of its size.
#[derive(Clone, Copy)]
pub struct Store<'a, C> {
    // the next state, at state times commands plus command
    pub steps: &'a [u8],
    // the console of each command
    pub owners: &'a [u8],
    // what is shown, at state times consoles plus console
    pub displays: &'a [C],
}

// A table reads counts, start and store as they are: a count out of range as 1, anything else out
// of range as 0. No invariant says that the store has room: each read would still be the same.
#[derive(Clone, Copy)]
pub struct Table<'a, D: DisplayKind> {
    counts: Counts,
    start: usize,
    store: Store<'a, D::Cell>,
}

// An entry that the store lacks is read as 0.
fn entry(store: &[u8], at: usize) -> usize
    ensures { result ≡ slice_index store.now at }
{
    store.get(at).map_or(0, |entry| usize::from(*entry))
}

// A display that the store lacks is read as zero.
fn display_at<D: DisplayKind>(store: &[D::Cell], at: usize) -> D
    ensures { result ≡ slice_index_or (map D.DisplayKind.stored store.now) at D.DisplayKind.zero }
{
    store
        .get(at)
        .map_or_else(|| D::zero(), |cell| D::from_cell(*cell))
}

impl<'a, D: DisplayKind> Table<'a, D> {
    pub fn new(
        counts: Counts,
        start: usize,
        store: Store<'a, D::Cell>,
    ) -> Result<Table<'a, D>, Refusal>
        ensures answer { is_ok result ≡ store_suffices (length store.entry.steps.now) (length store.entry.owners.now) (length store.entry.displays.now) }
        ensures contents { IfOk result (λ t. contents_of t ≡ contents counts start store.entry) }
        ensures refused { IfErr result (λ e. e ≡ TableStoreTooSmall) }
    {
        if store.steps.len() < STEPS
            || store.owners.len() < OWNERS
            || store.displays.len() < DISPLAYS
        {
            return Err(Refusal::TableStoreTooSmall);
        }
        Ok(Table {
            counts,
            start,
            store,
        })
    }
}

impl<'a, D: DisplayKind> Control for Table<'a, D> {
    type Display = D;

    ghost value = { λ t. table_value D.DisplayKind.stored D.DisplayKind.zero (contents_of t) };

    ghost lawful = { λ t. table_lawful D.DisplayKind.stored D.DisplayKind.zero (contents_of t) };

    fn states(&self) -> usize {
        read_count(MOST_STATES, self.counts.states)
    }

    fn commands(&self) -> usize {
        read_count(MOST_COMMANDS, self.counts.commands)
    }

    fn consoles(&self) -> usize {
        read_count(MOST_CONSOLES, self.counts.consoles)
    }

    fn start(&self) -> usize {
        read_number(self.states(), self.start)
    }

    fn owner(&self, command: usize) -> usize {
        let at = read_number(self.commands(), command);
        read_number(self.consoles(), entry(self.store.owners, at))
    }

    fn next(&self, state: usize, command: usize) -> usize {
        let states = self.states();
        let commands = self.commands();
        let at = read_number(states, state) * commands + read_number(commands, command);
        read_number(states, entry(self.store.steps, at))
    }

    fn display(&self, state: usize, console: usize) -> D {
        let consoles = self.consoles();
        let at = read_number(self.states(), state) * consoles + read_number(consoles, console);
        display_at(self.store.displays, at)
    }
}
