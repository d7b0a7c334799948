// The commands of a board that are locked out.
ghost use Rattle.std.specs.Prelude.{ℕ};
ghost use Rattle.theory.specs.Limits.{Count, most_commands};
ghost use Rattle.theory.specs.Flows.{LocksWithin};
ghost use Rattle.policy.specs.Members.{holds};

use crate::members::Members;

pub mod calls;

// The locked commands: each may still be given, and moves nothing. No entry lies beyond the
// number of commands.
#[derive(Clone, Copy)]
pub struct Lockouts {
    commands: usize,
    locked: Members,
    ghost count: { Count most_commands commands },
    ghost within: { LocksWithin commands (holds locked) },
}
