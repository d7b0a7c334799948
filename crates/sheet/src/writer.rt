// The writer: a control and its flows as a sheet, in an output of the caller's.
ghost use Rattle.std.specs.Prelude.{◌≡◌, length};
ghost use Rattle.policy.specs.Board.{value_of};
ghost use Rattle.policy.specs.Flows.{may_affect};
ghost use Rattle.sheet.specs.Text.{sheet_text};
ghost use Rattle.sheet.specs.Calls.{write_answer, output_after};
ghost use Rattle.sheet.specs.Written.{Wrote, Writes};

use crate::lines::{counts, displays, flows, owners, steps};
use crate::output::Output;
use control::control::Control;
use control::replay::check_counts;
use policy::board::Board;
use policy::flows::Flows;
use policy::refusal::Refusal;

// All blocks of the sheet, each under the names of its columns.
fn blocks<C: Control>(control: &C, permitted: &Flows, out: &mut Output<'_>)
    ensures { Writes out.old (sheet_text C.Display.kind C.Display.marked (C.value control.now) (may_affect permitted.now)) out.new }
{
    out.text(b"states commands consoles start display\n");
    counts(control, out);
    out.text(b"command console\n");
    owners(control, out);
    out.text(b"state command next\n");
    steps(control, out);
    out.text(b"state console display\n");
    displays(control, out);
    out.text(b"from to\n");
    flows(control, permitted, out);
}

// The sheet at the front of an output. The answer is the length of the whole, also where the output
// has no room for it.
fn sheet<C: Control>(control: &C, permitted: &Flows, out: &mut [u8]) -> usize
    ensures { Wrote out.old 0 (sheet_text C.Display.kind C.Display.marked (C.value control.now) (may_affect permitted.now)) out.new result }
{
    let mut output = Output { bytes: out, at: 0 };
    blocks(control, permitted, &mut output);
    output.at
}

// Writes the sheet to the front of the output, and answers its length. Refused where control and
// board differ in their counts, or where the output is too short; it is then left as it was.
pub fn write<C: Control>(control: &C, board: &Board, out: &mut [u8]) -> Result<usize, Refusal>
    ensures answer { result ≡ write_answer C.Display.kind C.Display.marked (value_of board.now) (C.value control.now) (length out.old) }
    ensures output { out.new ≡ output_after C.Display.kind C.Display.marked (value_of board.now) (C.value control.now) out.old }
{
    check_counts(board, control)?;
    let permitted = board.flows();
    // no byte fits an empty output: this only counts
    let needed = sheet(control, permitted, &mut []);
    if needed > out.len() {
        return Err(Refusal::OutputTooShort { needed });
    }
    Ok(sheet(control, permitted, out))
}
