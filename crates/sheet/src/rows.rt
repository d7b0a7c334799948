// Rows: what one line of a sheet says.
ghost use Rattle.std.specs.Prelude.{◌≡◌, map, IfOk};
ghost use Rattle.sheet.specs.Faults.{behind};
ghost use Rattle.sheet.specs.Reading.{counts_at, value_at};
ghost use Rattle.sheet.specs.Due.{names_in, title_of, row_of};
ghost use Rattle.sheet.specs.Entries.{counted, headed, told, Kinded};

use crate::due::{Block, Due};
use crate::fault::MarkFault;
use crate::heading::Heading;
use crate::marks::Cursor;
use control::table::Counts;
use display::kind::DisplayKind;
use theory::limits::{MOST_COMMANDS, MOST_CONSOLES, MOST_STATES};

// What a row adds to the tables.
#[derive(Clone, Copy)]
pub enum Entry<D> {
    // names add nothing
    Nothing,
    Owner(u8),
    Step(u8),
    Shown(D),
}

const OWNERS: [&[u8]; 2] = [b"command", b"console"];

const STEPS: [&[u8]; 3] = [b"state", b"command", b"next"];

const DISPLAYS: [&[u8]; 3] = [b"state", b"console", b"display"];

const FLOWS: [&[u8]; 2] = [b"from", b"to"];

// the names of the first block, which is read before any row is due
pub(crate) const COUNTS: [&[u8]; 5] = [b"states", b"commands", b"consoles", b"start", b"display"];

// The names that head a block.
fn names(block: Block) -> &'static [&'static [u8]]
    ensures { map (λ x. x.now) result.now ≡ names_in (title_of block) }
{
    match block {
        Block::Owners => &OWNERS,
        Block::Steps => &STEPS,
        Block::Displays => &DISPLAYS,
        Block::Flows => &FLOWS,
    }
}

// The row that is due.
pub(crate) fn row<D: DisplayKind>(
    cursor: &mut Cursor,
    heading: &Heading,
    due: Due,
) -> Result<Entry<D>, MarkFault>
    ensures read { told (behind result cursor.new.at) ≡ value_at D.DisplayKind.reads (counted heading.now) cursor.old.sheet.now (row_of heading.now.counts due) cursor.old.at }
    ensures sheet { cursor.new.sheet ≡ cursor.old.sheet }
    ensures kind { IfOk result (Kinded due) }
{
    let counts = heading.counts;
    match due {
        Due::Title(block) => {
            cursor.names(names(block))?;
            Ok(Entry::Nothing)
        }
        Due::Owner(command) => {
            cursor.exacts(&[command])?;
            let console = cursor.ranged(0, counts.consoles - 1, b'\n')?;
            Ok(Entry::Owner(console as u8))
        }
        Due::Step(number) => {
            cursor.exacts(&[number / counts.commands, number % counts.commands])?;
            let next = cursor.ranged(0, counts.states - 1, b'\n')?;
            Ok(Entry::Step(next as u8))
        }
        Due::Shown(number) => {
            cursor.exacts(&[number / counts.consoles, number % counts.consoles])?;
            Ok(Entry::Shown(cursor.display()?))
        }
    }
}

// The row of the first block: three counts, a start among the states, and the kind's name.
pub(crate) fn counts_row<D: DisplayKind>(cursor: &mut Cursor) -> Result<Heading, MarkFault>
    ensures read { headed (behind result cursor.new.at) ≡ counts_at D.DisplayKind.kind cursor.old.sheet.now cursor.old.at }
    ensures sheet { cursor.new.sheet ≡ cursor.old.sheet }
{
    let states = cursor.ranged(1, MOST_STATES, b' ')?;
    let commands = cursor.ranged(1, MOST_COMMANDS, b' ')?;
    let consoles = cursor.ranged(1, MOST_CONSOLES, b' ')?;
    let start = cursor.ranged(0, states - 1, b' ')?;
    cursor.name(D::kind_name().as_bytes(), b'\n')?;
    let counts = Counts {
        states,
        commands,
        consoles,
    };
    Ok(Heading { counts, start })
}
