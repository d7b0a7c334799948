// The transcript of a replay: which command was given, which state followed and what each console then shows.
ghost use Rattle.std.specs.Prelude.{◌≡◌, [], ◌∷◌, ◌++◌, IfOk, codes, decimal, OnOk};
ghost use Rattle.theory.specs.Control.{display_of};
ghost use Rattle.control.specs.Replays.{replay_answer};
ghost use Rattle.policy.specs.Board.{value_of};
ghost use Rattle.policy.specs.Lockouts.{locks};
ghost use Rattle.report.specs.Lines.{padded};
ghost use Rattle.report.specs.Transcripts.{columns, heading, line, state_columns, effect_of, closing, lines, transcript_text};
ghost use Rattle.report.specs.Troubles.{RefusedAs};

use crate::lines::push_padded;
use crate::trouble::Trouble;
use control::control::Control;
use control::replay::{give, replay};
use display::kind::DisplayKind;
use policy::board::Board;
use policy::lockouts::Lockouts;
use std::alloc::{AllocError, Global};
use std::io;
use std::io::Write;

// The column of a console; the other columns are as wide as the formats below say.
const CONSOLE_WIDTH: usize = 12;

// A column for each console with its number.
fn push_console_names(heap: Global, text: &mut Vec<u8>, consoles: usize) -> Result<(), AllocError>
    ensures { OnOk result (text.new.items ≡ text.old.items ++ columns (λ u. codes "console " ++ decimal u) consoles) }
{
    for console in 0..consoles {
        let name = format!(in heap; "console {console}")?;
        push_padded(text, CONSOLE_WIDTH, name.as_bytes())?;
    }
    Ok(())
}

fn push_heading(heap: Global, text: &mut Vec<u8>, consoles: usize) -> io::Result<()>
    ensures { OnOk result (text.new.items ≡ text.old.items ++ heading consoles) }
{
    write!(text, " step  command  effect  state")?;
    push_console_names(heap, text, consoles)?;
    writeln!(text)
}

// A column for each console with what it shows at `state`.
fn push_displays<C: Control>(
    text: &mut Vec<u8>,
    control: &C,
    state: usize,
) -> Result<(), AllocError>
    ensures { OnOk result (text.new.items ≡ text.old.items ++ columns (λ u. C.Display.DisplayKind.marked (display_of (C.Control.value control.now) state u)) (C.Control.value control.now).consoles) }
{
    for console in 0..control.consoles() {
        let mark = control.display(state, console).mark();
        push_padded(text, CONSOLE_WIDTH, mark.text())?;
    }
    Ok(())
}

// The end of a line: a state, and what each console shows there.
fn push_state<C: Control>(text: &mut Vec<u8>, control: &C, state: usize) -> io::Result<()>
    ensures { OnOk result (text.new.items ≡ text.old.items ++ state_columns C.Display.DisplayKind.marked (C.Control.value control.now) state) }
{
    write!(text, "{state:>7}")?;
    push_displays(text, control, state)?;
    writeln!(text)
}

// The line of the start, where no command is given yet.
fn push_start<C: Control>(text: &mut Vec<u8>, control: &C) -> io::Result<()>
    ensures { OnOk result (text.new.items ≡ text.old.items ++ line C.Display.DisplayKind.marked (C.Control.value control.now) (codes "start") [] [] (C.Control.value control.now).start) }
{
    write!(text, "start                 ")?;
    push_state(text, control, control.start())
}

// The word for what lockouts answer of a command, which is a yes or no.
fn effect(locked: bool) -> &'static str
    ensures { result.now ≡ effect_of locked }
{
    if locked { "locked" } else { "given" }
}

// A command that was given: its step from 1, and whether it was locked.
#[derive(Clone, Copy)]
struct Given {
    step: usize,
    command: usize,
    locked: bool,
}

// The columns of a command before the state.
fn push_given(text: &mut Vec<u8>, given: Given) -> io::Result<()>
    ensures { OnOk result (text.new.items ≡ text.old.items ++ (padded 5 (decimal given.step) ++ (padded 9 (decimal given.command) ++ padded 8 (effect_of given.locked)))) }
{
    let effect = effect(given.locked);
    write!(text, "{:>5}{:>9}{effect:>8}", given.step, given.command)
}

// The line of one command, and of the state after it.
fn push_command<C: Control>(
    text: &mut Vec<u8>,
    control: &C,
    given: Given,
    state: usize,
) -> io::Result<()>
    ensures { OnOk result (text.new.items ≡ text.old.items ++ line C.Display.DisplayKind.marked (C.Control.value control.now) (decimal given.step) (decimal given.command) (effect_of given.locked) state) }
{
    push_given(text, given)?;
    push_state(text, control, state)
}

// The lines of all commands, run from the start, and the closing state. Steps are numbered by
// `enumerate`: under `(1..).zip(sequence)` three goals stayed open.
fn push_commands<C: Control>(
    text: &mut Vec<u8>,
    control: &C,
    lockouts: &Lockouts,
    sequence: &[u8],
) -> io::Result<()>
    ensures { OnOk result (text.new.items ≡ text.old.items ++ lines C.Display.DisplayKind.marked (C.Control.value control.now) (locks lockouts.now) 1 (C.Control.value control.now).start sequence.now) }
{
    let mut state = control.start();
    for (i, command) in sequence.iter().enumerate() {
        let command = usize::from(*command);
        state = give(control, lockouts, state, command);
        let locked = lockouts.is_locked(command);
        let given = Given {
            step: i + 1,
            command,
            locked,
        };
        push_command(text, control, given, state)?;
    }
    writeln!(text, "closing state {state}")
}

// The transcript of a sequence under a board's lockouts, refused as replay refuses it. It is bytes
// and no `String`, since the marks in it are bytes.
pub fn transcript<C: Control>(
    heap: Global,
    board: &Board,
    control: &C,
    sequence: &[u8],
) -> Result<Vec<u8>, Trouble>
    ensures text { IfOk result (λ t. t.items ≡ transcript_text C.Display.DisplayKind.marked (C.Control.value control.now) (value_of board.now).locked sequence.now) }
    ensures refusals { RefusedAs result (replay_answer (value_of board.now) (C.Control.value control.now) sequence.now) }
{
    replay(board, control, sequence)?;
    let mut text = Vec::new(heap);
    push_heading(heap, &mut text, control.consoles())?;
    push_start(&mut text, control)?;
    push_commands(&mut text, control, board.lockouts(), sequence)?;
    Ok(text)
}
