// What a control is asked for.
ghost use Rattle.std.specs.Prelude.{◌≡◌, ◌<◌};
ghost use Rattle.theory.specs.Limits.{Count, most_states, most_commands, most_consoles};
ghost use Rattle.theory.specs.Control.{ControlValue, Lawful, owner_of, next_of, display_of};

use display::kind::DisplayKind;

// A receiver control. Its methods only look at it, so the same question always has the same
// answer. Numbers that are out of range count as 0.
pub trait Control {
    type Display: DisplayKind;

    // counts, start and the three tables
    ghost value: { Self → ControlValue Self.Display };

    ghost lawful: { (x : Self) → Lawful (value x) };

    fn states(&self) -> usize
        ensures value { result ≡ (value self.now).states }
        ensures bound { Count most_states result };

    fn commands(&self) -> usize
        ensures value { result ≡ (value self.now).commands }
        ensures bound { Count most_commands result };

    fn consoles(&self) -> usize
        ensures value { result ≡ (value self.now).consoles }
        ensures bound { Count most_consoles result };

    fn start(&self) -> usize
        ensures value { result ≡ (value self.now).start }
        ensures bound { result < (value self.now).states };

    // the console that a command belongs to
    fn owner(&self, command: usize) -> usize
        ensures value { result ≡ owner_of (value self.now) command }
        ensures bound { result < (value self.now).consoles };

    // the state to which a command takes a state
    fn next(&self, state: usize, command: usize) -> usize
        ensures value { result ≡ next_of (value self.now) state command }
        ensures bound { result < (value self.now).states };

    // what a console shows at a state
    fn display(&self, state: usize, console: usize) -> Self::Display
        ensures { result ≡ display_of (value self.now) state console };
}
