// A sequence that can be compared: of commands that there are, and not too long.
ghost use Rattle.std.specs.Prelude.{◌≡◌, ◌≤◌, length, is_some, IfSome};
ghost use Rattle.meaning.specs.Asked.{most_compared, comparable};

use control::reading::all_below;

// The most commands of a sequence that is compared.
pub(crate) const MOST_COMPARED: usize = 64;

#[derive(Clone, Copy)]
pub(crate) struct Compared<'a> {
    pub(crate) commands: &'a [u8],
    ghost short: { length commands.now ≤ most_compared },
}

impl<'a> Compared<'a> {
    // None for a sequence that is too long or has a command from `commands` on.
    pub(crate) fn new(commands: usize, sequence: &'a [u8]) -> Option<Compared<'a>>
        ensures in_range { is_some result ≡ comparable commands sequence.now }
        ensures whole { IfSome result (λ c. c.commands.now ≡ sequence.now) }
    {
        if sequence.len() > MOST_COMPARED || !all_below(commands, sequence) {
            return None;
        }
        Some(Compared { commands: sequence })
    }
}
