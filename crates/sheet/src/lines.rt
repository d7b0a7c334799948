// The lines of a sheet, block by block.
ghost use Rattle.policy.specs.Flows.{may_affect};
ghost use Rattle.sheet.specs.Text.{rows_text, counts_text, flows_text, flow_pairs};
ghost use Rattle.sheet.specs.Written.{Writes, owner_rows, step_rows, display_rows};

use crate::output::Output;
use control::control::Control;
use display::kind::DisplayKind;
use policy::flows::Flows;

// Counts, start and the name of the display kind.
pub(crate) fn counts<C: Control>(control: &C, out: &mut Output<'_>)
    ensures { Writes out.old (counts_text C.Display.kind C.Display.marked (C.value control.now)) out.new }
{
    out.number(control.states(), b' ');
    out.number(control.commands(), b' ');
    out.number(control.consoles(), b' ');
    out.number(control.start(), b' ');
    out.word(C::Display::kind_name().as_bytes(), b'\n');
}

// A line for each command: the console that it belongs to.
pub(crate) fn owners<C: Control>(control: &C, out: &mut Output<'_>)
    ensures { Writes out.old (rows_text C.Display.kind C.Display.marked (C.value control.now) (owner_rows (C.value control.now))) out.new }
{
    for command in 0..control.commands() {
        out.number(command, b' ');
        out.number(control.owner(command), b'\n');
    }
}

// A line for each state and command: the state that comes next.
// Twin of `displays`: one function, with a closure that ends a row, came to sixteen lines more here.
pub(crate) fn steps<C: Control>(control: &C, out: &mut Output<'_>)
    ensures { Writes out.old (rows_text C.Display.kind C.Display.marked (C.value control.now) (step_rows (C.value control.now))) out.new }
{
    for state in 0..control.states() {
        for command in 0..control.commands() {
            out.number(state, b' ');
            out.number(command, b' ');
            out.number(control.next(state, command), b'\n');
        }
    }
}

// A line for each state and console: what the console shows.
pub(crate) fn displays<C: Control>(control: &C, out: &mut Output<'_>)
    ensures { Writes out.old (rows_text C.Display.kind C.Display.marked (C.value control.now) (display_rows (C.value control.now))) out.new }
{
    for state in 0..control.states() {
        for console in 0..control.consoles() {
            out.number(state, b' ');
            out.number(console, b' ');
            out.word(control.display(state, console).mark().text(), b'\n');
        }
    }
}

// A line for each flow from a console to another.
pub(crate) fn flows<C: Control>(control: &C, flows: &Flows, out: &mut Output<'_>)
    ensures { Writes out.old (flows_text (C.value control.now).consoles (flow_pairs (C.value control.now).consoles (may_affect flows.now))) out.new }
{
    for from in 0..control.consoles() {
        for to in 0..control.consoles() {
            if from != to && flows.may_affect(from, to) {
                out.number(from, b' ');
                out.number(to, b'\n');
            }
        }
    }
}
