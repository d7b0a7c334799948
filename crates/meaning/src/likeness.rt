// Whether two sequences are alike for a console of a control, under the flows of a board.
ghost use Rattle.std.specs.Prelude.{◌≡◌, map};
ghost use Rattle.std.specs.List.{range_with_len};
ghost use Rattle.theory.specs.Control.{owner_of};
ghost use Rattle.policy.specs.Board.{value_of};
ghost use Rattle.meaning.specs.Likeness.{likeness_answer};

use crate::compared::MOST_COMPARED;
use crate::meaning::Meaning;
use arrayvec::ArrayVec;
use control::control::Control;
use control::replay::{check_commands, check_counts};
use policy::board::Board;
use policy::refusal::Refusal;
use theory::limits::MOST_COMMANDS;

// The console of each command of a control.
fn owners_of<C: Control>(control: &C) -> ArrayVec<u8, MOST_COMMANDS>
    ensures { result.items ≡ map (owner_of (C.Control.value control.now)) (range_with_len 0 (C.Control.value control.now).commands) }
{
    let mut owners = ArrayVec::new();
    for command in 0..control.commands() {
        owners.push(control.owner(command) as u8);
    }
    owners
}

// Refused where the board has no such console or command, where the control has other counts than
// the board, and where a sequence is too long, in this order.
pub fn likeness<C: Control, M: Meaning>(
    board: &Board,
    control: &C,
    meaning: &M,
    console: usize,
    left: &[u8],
    right: &[u8],
) -> Result<bool, Refusal>
    ensures { result ≡ likeness_answer (M.Meaning.meaning meaning.now) (value_of board.now) (C.Control.value control.now) console left.now right.now }
{
    if console >= board.flows().consoles() {
        return Err(Refusal::NoSuchConsole);
    }
    check_commands(board.lockouts(), left)?;
    check_commands(board.lockouts(), right)?;
    check_counts(board, control)?;
    if left.len() > MOST_COMPARED || right.len() > MOST_COMPARED {
        return Err(Refusal::SequenceTooLong);
    }
    let owners = owners_of(control);
    Ok(meaning.alike(board.flows(), &owners, console, left, right))
}
