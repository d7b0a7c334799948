// Replay: where a sequence of commands leads a control.
ghost use Rattle.std.specs.Prelude.{◌≡◌};
ghost use Rattle.theory.specs.Control.{next_of};
ghost use Rattle.theory.specs.Runs.{moved, leads};
ghost use Rattle.policy.specs.Lockouts.{commands_of, locks};
ghost use Rattle.policy.specs.Board.{value_of};
ghost use Rattle.control.specs.Replays.{commands_answer, counts_answer, replay_answer};

use crate::control::Control;
use crate::reading::all_below;
use policy::board::Board;
use policy::lockouts::Lockouts;
use policy::refusal::Refusal;

// The state after one command is given at a state. A locked command leaves the state.
pub fn give<C: Control>(control: &C, lockouts: &Lockouts, state: usize, command: usize) -> usize
    ensures { result ≡ moved (next_of (C.Control.value control.now)) (locks lockouts.now) state command }
{
    if lockouts.is_locked(command) {
        state
    } else {
        control.next(state, command)
    }
}

// The state that a sequence leads to from the start.
pub fn walk<C: Control>(control: &C, lockouts: &Lockouts, sequence: &[u8]) -> usize
    ensures { result ≡ leads (next_of (C.Control.value control.now)) (locks lockouts.now) (C.Control.value control.now).start sequence.now }
{
    let mut state = control.start();
    for command in sequence {
        state = give(control, lockouts, state, usize::from(*command));
    }
    state
}

// Refused where a byte of the sequence is no command of the board.
pub fn check_commands(lockouts: &Lockouts, sequence: &[u8]) -> Result<(), Refusal>
    ensures { result ≡ commands_answer (commands_of lockouts.now) sequence.now }
{
    all_below(lockouts.commands(), sequence)
        .then_some(())
        .ok_or(Refusal::NoSuchCommand)
}

// Refused where control and board have different numbers of consoles or of commands.
pub fn check_counts<C: Control>(board: &Board, control: &C) -> Result<(), Refusal>
    ensures { result ≡ counts_answer (value_of board.now) (C.Control.value control.now) }
{
    let same = control.consoles() == board.flows().consoles()
        && control.commands() == board.lockouts().commands();
    same.then_some(()).ok_or(Refusal::CountsDiffer)
}

// The last state of a sequence, run from the start under the board's lockouts.
pub fn replay<C: Control>(board: &Board, control: &C, sequence: &[u8]) -> Result<usize, Refusal>
    ensures { result ≡ replay_answer (value_of board.now) (C.Control.value control.now) sequence.now }
{
    check_commands(board.lockouts(), sequence)?;
    check_counts(board, control)?;
    Ok(walk(control, board.lockouts(), sequence))
}
