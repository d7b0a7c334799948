// Which row of a sheet is due, from the counts to the flows.
ghost use Rattle.std.specs.Prelude.{◌≡◌};
ghost use Rattle.sheet.specs.Due.{Stands, title_of, number_of, next_due};
ghost use Rattle.sheet.specs.Plan.{block_of};

use crate::heading::Heading;

// The blocks whose rows are known from the counts, and the last, whose names alone are.
#[derive(Clone, Copy)]
pub enum Block {
    Owners,
    Steps,
    Displays,
    Flows,
}

// The row that is due; of several alike its number, from 0. A state that is matched with the row
// just read and advanced in place: the form that the project asks of its reader.
#[derive(Clone, Copy)]
pub enum Due {
    // the names that head a block
    Title(Block),
    // the console of a command
    Owner(usize),
    // the step at a state by a command, state after state
    Step(usize),
    // what a console shows at a state, state after state
    Shown(usize),
}

impl Block {
    // Counted from 1, where the counts stand: a number, since a refusal tells the block as one.
    pub(crate) fn number(self) -> usize
        ensures { result ≡ block_of (title_of self) }
    {
        match self {
            Block::Owners => 2,
            Block::Steps => 3,
            Block::Displays => 4,
            Block::Flows => 5,
        }
    }
}

impl Due {
    // The number of the row's block.
    pub(crate) fn block(self) -> usize
        ensures { result ≡ number_of self }
    {
        let block = match self {
            Due::Title(block) => block,
            Due::Owner(_) => Block::Owners,
            Due::Step(_) => Block::Steps,
            Due::Shown(_) => Block::Displays,
        };
        block.number()
    }

    // The row after it; behind the last row of a block stand the names of the next.
    pub(crate) fn after(self, heading: &Heading) -> Option<Due>
        requires { Stands heading.now.counts self }
        ensures { result ≡ next_due heading.now.counts self }
    {
        let counts = heading.counts;
        match self {
            Due::Title(Block::Owners) => Some(Due::Owner(0)),
            Due::Title(Block::Steps) => Some(Due::Step(0)),
            Due::Title(Block::Displays) => Some(Due::Shown(0)),
            Due::Title(Block::Flows) => None,
            Due::Owner(n) if n + 1 < counts.commands => Some(Due::Owner(n + 1)),
            Due::Owner(_) => Some(Due::Title(Block::Steps)),
            Due::Step(n) if n + 1 < counts.states * counts.commands => Some(Due::Step(n + 1)),
            Due::Step(_) => Some(Due::Title(Block::Displays)),
            Due::Shown(n) if n + 1 < counts.states * counts.consoles => Some(Due::Shown(n + 1)),
            Due::Shown(_) => Some(Due::Title(Block::Flows)),
        }
    }
}
