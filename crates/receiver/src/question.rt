// What is asked of a receiver, whatever its kind of display.
ghost use Rattle.std.specs.Prelude.{List, ℕ};
ghost use Rattle.policy.specs.Board.{value_of};
ghost use Rattle.theory.specs.Boards.{BoardValue};
ghost use Rattle.theory.specs.Control.{ControlValue};

use control::control::Control;
use policy::board::Board;

pub trait Question {
    type Answer: Drop;

    // which answers are right on a board and a control whose displays are shown as these marks
    ghost answered: { Self → BoardValue → (D : Type 0) → (D → List ℕ) → ControlValue D → Self.Answer → Type 0 };

    // the board is handed over, so that a question may change it first
    fn ask<C: Control>(&self, board: Board, control: &C) -> Self::Answer
        ensures { answered self.now (value_of board) C.Display C.Display.DisplayKind.marked (C.Control.value control.now) result };
}
