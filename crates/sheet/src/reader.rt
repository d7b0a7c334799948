// Reading a sheet: once over the whole of it, and then over its rows again to fill the tables.
ghost use Rattle.std.specs.Prelude.{◌≡◌, ◌+◌, true, map, length, Ok};
ghost use Rattle.control.specs.Tables.{store_suffices};
ghost use Rattle.sheet.specs.Calls.{FoundAs, read_into, store_after};
ghost use Rattle.sheet.specs.Faults.{on, behind};
ghost use Rattle.sheet.specs.Reading.{plan_of};
ghost use Rattle.sheet.specs.Entries.{counted, headed, first_at, rows_behind};
ghost use Rattle.sheet.specs.Stores.{Holds, steps_with, owners_with, displays_with, FilledBy};

use crate::due::Due;
use crate::fault::SheetFault;
use crate::flows::all_flows;
use crate::found::Found;
use crate::heading::{COUNTS_BLOCK, COUNTS_LINE, Heading, NAMES_LINE};
use crate::marks::Cursor;
use crate::progress::Progress;
use crate::rows;
use crate::rows::Entry;
use control::table::{DISPLAYS, OWNERS, STEPS};
use display::kind::DisplayKind;
use policy::refusal::Refusal;
use theory::limits::MOST_SHEET_BYTES;

// The first block: the counts and the start.
fn first_block<D: DisplayKind>(cursor: &mut Cursor) -> Result<Heading, SheetFault>
    ensures read { headed (behind result cursor.new.at) ≡ first_at D.DisplayKind.kind cursor.old.sheet.now cursor.old.at }
    ensures sheet { cursor.new.sheet ≡ cursor.old.sheet }
{
    cursor
        .names(&rows::COUNTS)
        .map_err(|fault| fault.on_line(NAMES_LINE).in_block(COUNTS_BLOCK))?;
    rows::counts_row::<D>(cursor).map_err(|fault| fault.on_line(COUNTS_LINE).in_block(COUNTS_BLOCK))
}

// Reads the rows before the flows and keeps nothing of them; the line behind them.
fn pass_rows<D: DisplayKind>(cursor: &mut Cursor, heading: &Heading) -> Result<usize, SheetFault>
    ensures read { behind result cursor.new.at ≡ on (rows_behind D.DisplayKind.reads heading.now cursor.old) (λ z. Ok (3 + length (plan_of (counted heading.now)), z.1)) }
    ensures sheet { cursor.new.sheet ≡ cursor.old.sheet }
{
    let mut progress = Progress::start(*cursor);
    while let Some(_) = progress.next::<D>(heading)? {}
    cursor.at = progress.cursor.at;
    Ok(progress.line)
}

// Writes what a row says where it belongs.
fn keep<D: DisplayKind>(
    due: Due,
    entry: Entry<D>,
    steps: &mut [u8],
    owners: &mut [u8],
    displays: &mut [D::Cell],
)
    requires { Holds (length steps.old) (length owners.old) (length displays.old) due }
    ensures steps { steps.new ≡ steps_with due entry steps.old }
    ensures owners { owners.new ≡ owners_with due entry owners.old }
    ensures displays { displays.new ≡ displays_with D.DisplayKind.cell due entry displays.old }
{
    match (due, entry) {
        (Due::Owner(n), Entry::Owner(console)) => owners[n] = console,
        (Due::Step(n), Entry::Step(next)) => steps[n] = next,
        (Due::Shown(n), Entry::Shown(display)) => displays[n] = display.to_cell(),
        // names are kept nowhere, and no row is read as another than the one due
        _ => {}
    }
}

// Reads the rows behind a cursor again, and keeps what they say.
fn fill<D: DisplayKind>(
    cursor: Cursor,
    heading: &Heading,
    steps: &mut [u8],
    owners: &mut [u8],
    displays: &mut [D::Cell],
) -> Result<(), SheetFault>
    requires { store_suffices (length steps.old) (length owners.old) (length displays.old) ≡ true }
    ensures read { result ≡ on (rows_behind D.DisplayKind.reads heading.now cursor.entry) (λ _. Ok tt) }
    ensures steps { FilledBy (λ e. e.steps) (rows_behind D.DisplayKind.reads heading.now cursor.entry) steps.old steps.new }
    ensures owners { FilledBy (λ e. e.owners) (rows_behind D.DisplayKind.reads heading.now cursor.entry) owners.old owners.new }
    ensures displays { FilledBy (λ e. map D.cell e.displays) (rows_behind D.DisplayKind.reads heading.now cursor.entry) displays.old displays.new }
{
    let mut progress = Progress::start(cursor);
    while let Some((due, entry)) = progress.next::<D>(heading)? {
        keep(due, entry, steps, owners, displays);
    }
    Ok(())
}

// What the sheet says: its counts, its start and its flows, and the tables in the store. The rows are
// read twice and kept nowhere between: a kind's cells may be of any size, so no table of them lies on
// the stack, and no store is written before the whole sheet is known to be good.
pub fn read<D: DisplayKind>(
    sheet: &[u8],
    steps: &mut [u8],
    owners: &mut [u8],
    displays: &mut [D::Cell],
) -> Result<Found, Refusal>
    ensures found { FoundAs result (read_into D.DisplayKind.kind D.DisplayKind.reads steps.old owners.old displays.old sheet.now) }
    ensures steps { steps.new ≡ store_after (λ x. x.entries.steps) (read_into D.DisplayKind.kind D.DisplayKind.reads steps.old owners.old displays.old sheet.now) steps.old }
    ensures owners { owners.new ≡ store_after (λ x. x.entries.owners) (read_into D.DisplayKind.kind D.DisplayKind.reads steps.old owners.old displays.old sheet.now) owners.old }
    ensures displays { displays.new ≡ store_after (λ x. map D.cell x.entries.displays) (read_into D.DisplayKind.kind D.DisplayKind.reads steps.old owners.old displays.old sheet.now) displays.old }
{
    if sheet.len() > MOST_SHEET_BYTES {
        return Err(Refusal::SheetTooLong);
    }
    if steps.len() < STEPS || owners.len() < OWNERS || displays.len() < DISPLAYS {
        return Err(Refusal::TableStoreTooSmall);
    }
    let mut cursor = Cursor { sheet, at: 0 };
    let heading = first_block::<D>(&mut cursor)?;
    let before_rows = cursor;
    let line = pass_rows::<D>(&mut cursor, &heading)?;
    let board = all_flows(&mut cursor, line, &heading)?;
    fill::<D>(before_rows, &heading, steps, owners, displays)?;
    Ok(Found {
        counts: heading.counts,
        start: heading.start,
        board,
    })
}
