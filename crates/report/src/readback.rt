// The permitted flows read back in words, so that a flow entered the wrong way round is seen.
ghost use Rattle.std.specs.Prelude.{◌≡◌, ℕ, List, ◌++◌, IfOk, OnOk, string_bytes};
ghost use Rattle.policy.specs.Flows.{consoles_of, may_affect};
ghost use Rattle.report.specs.Lines.{Pushes, upto};
ghost use Rattle.report.specs.Readbacks.{flow_line, flow_lines, giver, givers_line, readback_text};

use policy::flows::Flows;
use std::alloc::{AllocError, Global};

// A line for the flow between two consoles, if there is one.
fn push_flow(text: &mut String, flows: &Flows, from: usize, to: usize) -> Result<(), AllocError>
    ensures { OnOk result (string_bytes text.new ≡ string_bytes text.old ++ flow_line (may_affect flows.now) from to) }
{
    if from != to && flows.may_affect(from, to) {
        writeln!(text, "console {from} may affect console {to}")?;
    }
    Ok(())
}

// A piece of text for each number below a count, one after the other.
fn push_each<F: Fn(&mut String, usize) -> Result<(), AllocError>>(
    text: &mut String,
    count: usize,
    piece: F,
) -> Result<(), AllocError>
    requires { F.IsAlwaysCallable piece }
    ensures { (said : ℕ → List ℕ) → Pushes (F.post piece) said count → OnOk result (string_bytes text.new ≡ string_bytes text.old ++ upto said count) }
{
    for n in 0..count {
        piece(text, n)?;
    }
    Ok(())
}

// The flows from one console.
fn push_flows_from(text: &mut String, flows: &Flows, from: usize) -> Result<(), AllocError>
    ensures { OnOk result (string_bytes text.new ≡ string_bytes text.old ++ flow_lines (may_affect flows.now) (consoles_of flows.now) from) }
{
    push_each(
        text,
        flows.consoles(),
        |text, to| push_flow(text, flows, from, to),
    )
}

// One of the consoles that may affect another.
fn push_giver(text: &mut String, flows: &Flows, from: usize, to: usize) -> Result<(), AllocError>
    ensures { OnOk result (string_bytes text.new ≡ string_bytes text.old ++ giver (may_affect flows.now) to from) }
{
    if from != to && flows.may_affect(from, to) {
        write!(text, ", console {from}")?;
    }
    Ok(())
}

// The line of one console: by whom it may be affected.
fn push_givers_line(text: &mut String, flows: &Flows, to: usize) -> Result<(), AllocError>
    ensures { OnOk result (string_bytes text.new ≡ string_bytes text.old ++ givers_line (may_affect flows.now) (consoles_of flows.now) to) }
{
    write!(text, "console {to} may be affected by itself")?;
    push_each(
        text,
        flows.consoles(),
        |text, from| push_giver(text, flows, from, to),
    )?;
    writeln!(text)
}

// All permitted flows, and for each console who may affect it.
pub fn readback(heap: Global, flows: &Flows) -> Result<String, AllocError>
    ensures { IfOk result (λ t. string_bytes t ≡ readback_text (may_affect flows.now) (consoles_of flows.now)) }
{
    let mut text = String::new(heap);
    writeln!(text, "Permitted flows:")?;
    push_each(
        &mut text,
        flows.consoles(),
        |text, from| push_flows_from(text, flows, from),
    )?;
    writeln!(text, "Seen from each console:")?;
    push_each(
        &mut text,
        flows.consoles(),
        |text, to| push_givers_line(text, flows, to),
    )?;
    Ok(text)
}
