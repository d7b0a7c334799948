// The permitted flows among the consoles of a board.
ghost use Rattle.std.specs.Prelude.{ℕ};
ghost use Rattle.theory.specs.Limits.{Count, most_consoles};
ghost use Rattle.theory.specs.Flows.{SelfFlows, FlowsWithin};
ghost use Rattle.policy.specs.Rows.{affects};

use crate::members::Members;
use theory::limits::MOST_CONSOLES;

pub mod calls;

// For each console the consoles that it may affect. Every console may affect itself, and no
// entry lies beyond the number of consoles. The rows are an array with room for the most consoles,
// since a board is copied and lies in fixed memory.
#[derive(Clone, Copy)]
pub struct Flows {
    consoles: usize,
    rows: [Members; MOST_CONSOLES],
    ghost count: { Count most_consoles consoles },
    ghost selves: { SelfFlows consoles (affects rows) },
    ghost within: { FlowsWithin consoles (affects rows) },
}
