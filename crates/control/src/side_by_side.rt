// Two controls of one display kind side by side, as one control.
ghost use Rattle.std.specs.Prelude.{◌≡◌};
ghost use Rattle.theory.specs.Control.{fits, side_by_side};
ghost use Rattle.control.specs.Pairs.{fit_answer, side_by_side_lawful};

use crate::control::Control;
use crate::reading::read_number;
use policy::refusal::Refusal;
use theory::limits::{MOST_COMMANDS, MOST_CONSOLES, MOST_STATES};

// Each side moves and shows its own; a pair that does not fit is the left control alone. Any two
// controls may be put into the public fields, fit or unfit: so each method asks for the fit first,
// and the right side again only where it fits, since that side may be a pair itself, and so on.
#[derive(Clone, Copy)]
pub struct SideBySide<L, R> {
    pub left: L,
    pub right: R,
}

// Whether the product of the states and the sums of commands and consoles keep the limits.
fn fit<L: Control, R: Control<Display = L::Display>>(left: &L, right: &R) -> bool
    ensures { result ≡ fits (L.Control.value left.now) (R.Control.value right.now) }
{
    left.states() * right.states() <= MOST_STATES
        && left.commands() + right.commands() <= MOST_COMMANDS
        && left.consoles() + right.consoles() <= MOST_CONSOLES
}

// The first call for a pair: refused where it would pass the limits.
pub fn check_fit<L: Control, R: Control<Display = L::Display>>(
    left: &L,
    right: &R,
) -> Result<(), Refusal>
    ensures { result ≡ fit_answer (L.Control.value left.now) (R.Control.value right.now) }
{
    fit(left, right).then_some(()).ok_or(Refusal::DoesNotFit)
}

impl<L: Control, R: Control<Display = L::Display>> SideBySide<L, R> {
    fn fits(&self) -> bool
        ensures { result ≡ fits (L.Control.value self.now.left) (R.Control.value self.now.right) }
    {
        fit(&self.left, &self.right)
    }
}

impl<L: Control, R: Control<Display = L::Display>> Control for SideBySide<L, R> {
    type Display = L::Display;

    ghost value = { λ p. side_by_side (L.Control.value p.left) (R.Control.value p.right) };

    ghost lawful = { λ p. side_by_side_lawful (L.Control.lawful p.left) (R.Control.lawful p.right) };

    fn states(&self) -> usize {
        let left = self.left.states();
        if self.fits() {
            left * self.right.states()
        } else {
            left
        }
    }

    fn commands(&self) -> usize {
        let left = self.left.commands();
        if self.fits() {
            left + self.right.commands()
        } else {
            left
        }
    }

    fn consoles(&self) -> usize {
        let left = self.left.consoles();
        if self.fits() {
            left + self.right.consoles()
        } else {
            left
        }
    }

    fn start(&self) -> usize {
        let row = self.left.start();
        if self.fits() {
            row * self.right.states() + self.right.start()
        } else {
            row
        }
    }

    fn owner(&self, command: usize) -> usize {
        if !self.fits() {
            return self.left.owner(command);
        }
        let command = read_number(self.commands(), command);
        let first = self.left.commands();
        if command < first {
            self.left.owner(command)
        } else {
            self.left.consoles() + self.right.owner(command - first)
        }
    }

    fn next(&self, state: usize, command: usize) -> usize {
        if !self.fits() {
            return self.left.next(state, command);
        }
        let state = read_number(self.states(), state);
        let command = read_number(self.commands(), command);
        let first = self.left.commands();
        let width = self.right.states();
        if command < first {
            self.left.next(state / width, command) * width + state % width
        } else {
            state / width * width + self.right.next(state % width, command - first)
        }
    }

    fn display(&self, state: usize, console: usize) -> L::Display {
        if !self.fits() {
            return self.left.display(state, console);
        }
        let state = read_number(self.states(), state);
        let console = read_number(self.consoles(), console);
        let first = self.left.consoles();
        let width = self.right.states();
        if console < first {
            self.left.display(state / width, console)
        } else {
            self.right.display(state % width, console - first)
        }
    }
}
