// Two sequences compared for a console: whether they are alike, and what the console shows after each.
ghost use Rattle.std.specs.Prelude.{◌≡◌, [], ◌∷◌, ◌++◌, IfOk, string_bytes, OnOk};
ghost use Rattle.meaning.specs.Likeness.{likeness_answer};
ghost use Rattle.meaning.specs.Published.{published_meaning};
ghost use Rattle.policy.specs.Board.{value_of};
ghost use Rattle.policy.specs.Lockouts.{locks};
ghost use Rattle.report.specs.Comparisons.{verdict, outcome, compared};
ghost use Rattle.report.specs.Troubles.{RefusedAs};

use crate::trouble::Trouble;
use control::control::Control;
use control::replay::walk;
use display::kind::DisplayKind;
use meaning::likeness::likeness;
use meaning::published::Published;
use policy::board::Board;
use policy::lockouts::Lockouts;
use std::alloc::Global;
use std::io;
use std::io::Write;

// `alike` is the yes or no that likeness answers; the text has a word for each.
fn push_verdict(
    text: &mut Vec<u8>,
    meaning: Published,
    console: usize,
    alike: bool,
) -> io::Result<()>
    ensures { OnOk result (text.new.items ≡ text.old.items ++ verdict meaning console alike) }
{
    let are = if alike { "are" } else { "are not" };
    writeln!(
        text,
        "Under {meaning} the two sequences {are} alike for console {console}."
    )
}

// A console of a control under lockouts.
#[derive(Drop)]
struct Seen<'a, C> {
    control: &'a C,
    lockouts: &'a Lockouts,
    console: usize,
}

// What the console shows after a sequence.
fn push_outcome<C: Control>(
    text: &mut Vec<u8>,
    seen: &Seen<'_, C>,
    which: &str,
    sequence: &[u8],
) -> io::Result<()>
    ensures { OnOk result (text.new.items ≡ text.old.items ++ outcome C.Display.marked (C.value seen.now.control.now) (locks seen.now.lockouts.now) seen.now.console which.now sequence.now) }
{
    let state = walk(seen.control, seen.lockouts, sequence);
    let mark = seen.control.display(state, seen.console).mark();
    write!(
        text,
        "After the {which} one the state is {state} and the console shows "
    )?;
    text.write_all(mark.text())?;
    writeln!(text, ".")
}

// Whether two sequences are alike for a console under a meaning, and what the console shows
// after each; refused as the question itself is. It is bytes, as the marks in it are.
pub fn comparison<C: Control>(
    heap: Global,
    board: &Board,
    control: &C,
    meaning: Published,
    console: usize,
    left: &[u8],
    right: &[u8],
) -> Result<Vec<u8>, Trouble>
    ensures text { IfOk result (λ t. t.items ≡ compared C.Display.DisplayKind.marked (C.Control.value control.now) (value_of board.now) meaning console left.now right.now) }
    ensures refusals { RefusedAs result (likeness_answer (published_meaning meaning) (value_of board.now) (C.Control.value control.now) console left.now right.now) }
{
    let alike = likeness(board, control, &meaning, console, left, right)?;
    let seen = Seen {
        control,
        lockouts: board.lockouts(),
        console,
    };
    let mut text = Vec::new(heap);
    push_verdict(&mut text, meaning, console, alike)?;
    push_outcome(&mut text, &seen, "first", left)?;
    push_outcome(&mut text, &seen, "second", right)?;
    Ok(text)
}
