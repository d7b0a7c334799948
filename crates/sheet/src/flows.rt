// The last block: the flows, each in its turn, allowed on a board.
ghost use Rattle.std.specs.Prelude.{◌≡◌, ◌+◌, ◌*◌, ◌<◌, ◌≤◌, IfOk, IfSome};
ghost use Rattle.sheet.specs.Faults.{behind};
ghost use Rattle.sheet.specs.Reading.{flow_at, flows_at};
ghost use Rattle.sheet.specs.Due.{highest_line};
ghost use Rattle.sheet.specs.Boards.{flow_due, flow_next, BoardAs};

use crate::due::Block;
use crate::fault::{MarkFault, SheetFault};
use crate::heading::Heading;
use crate::marks::Cursor;
use mark::cause::Cause;
use policy::board::Board;
use policy::refusal::Refusal;

// A row of the last block, as the number of its pair of consoles.
fn flow(cursor: &mut Cursor, heading: &Heading) -> Result<usize, MarkFault>
    ensures read { behind result cursor.new.at ≡ flow_at heading.now.counts.consoles cursor.old.sheet.now cursor.old.at }
    ensures sheet { cursor.new.sheet ≡ cursor.old.sheet }
    ensures bound { IfOk result (λ p. p < heading.now.counts.consoles * heading.now.counts.consoles) }
{
    let consoles = heading.counts.consoles;
    let from = cursor.ranged(0, consoles - 1, b' ')?;
    let to = cursor.ranged(0, consoles - 1, b'\n')?;
    Ok(from * consoles + to)
}

// A flow that may come: no self flow, and no pair below `low`, the one behind the last.
fn flow_due(cursor: &mut Cursor, heading: &Heading, low: usize) -> Result<usize, MarkFault>
    ensures read { behind result cursor.new.at ≡ flow_due heading.now.counts.consoles low cursor.old.sheet.now cursor.old.at }
    ensures sheet { cursor.new.sheet ≡ cursor.old.sheet }
    ensures bound { IfOk result (λ p. (low ≤ p) × (p < heading.now.counts.consoles * heading.now.counts.consoles)) }
{
    let first = cursor.fault(Cause::NotDue);
    let pair = flow(cursor, heading)?;
    let consoles = heading.counts.consoles;
    if pair < low || pair / consoles == pair % consoles {
        return Err(first);
    }
    Ok(pair)
}

// The flow that comes next, if the sheet goes on; its line is one of the last block.
fn next_flow(
    cursor: &mut Cursor,
    heading: &Heading,
    line: usize,
    low: usize,
) -> Result<Option<usize>, SheetFault>
    ensures read { behind result cursor.new.at ≡ flow_next heading.now.counts.consoles low line cursor.old.sheet.now cursor.old.at }
    ensures sheet { cursor.new.sheet ≡ cursor.old.sheet }
    ensures bound { IfOk result (λ o. IfSome o (λ p. (low ≤ p) × (p < heading.now.counts.consoles * heading.now.counts.consoles))) }
{
    if cursor.at >= cursor.sheet.len() {
        return Ok(None);
    }
    let pair = flow_due(cursor, heading, low).map_err(|fault| fault
        .on_line(line)
        .in_block(Block::Flows.number()))?;
    Ok(Some(pair))
}

// The flows to the end of the sheet, on a board that is bare of any other.
pub(crate) fn all_flows(
    cursor: &mut Cursor,
    line: usize,
    heading: &Heading,
) -> Result<Board, Refusal>
    requires { line ≤ highest_line }
    ensures { BoardAs heading.now.counts result (flows_at heading.now.counts.consoles cursor.old.sheet.now (heading.now.counts.consoles * heading.now.counts.consoles) 0 line cursor.old.at) }
{
    let consoles = heading.counts.consoles;
    let mut board = Board::bare(consoles, heading.counts.commands)?;
    let mut row = line;
    let mut low = 0;
    while let Some(pair) = next_flow(cursor, heading, row, low)? {
        board.allow(pair / consoles, pair % consoles)?;
        row += 1;
        low = pair + 1;
    }
    Ok(board)
}
