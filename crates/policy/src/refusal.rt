// How a call is refused, why in words, and the four numbers that a refusal tells.
ghost use Rattle.std.specs.Prelude.{◌≡◌, Some};
ghost use Rattle.policy.specs.Refusals.{number_alone, told_of, values_of, reason_of};

use mark::cause::Cause;
use std::fmt;
use theory::limits::MOST_SHEET_BYTES;

#[derive(Clone, Copy, PartialEq, Eq, Debug)]
pub enum Refusal {
    // a sheet of over 40,960 bytes
    SheetTooLong,
    // a table's store has under 2,400 steps, 24 consoles or 1,200 displays
    TableStoreTooSmall,
    // a fault in a sheet: why, at which byte, on which line and in which block
    Fault {
        cause: Cause,
        place: usize,
        line: usize,
        block: usize,
    },
    // the board has no console of that number
    NoSuchConsole,
    // the board has no command of that number
    NoSuchCommand,
    // a console always may affect itself
    SelfFlow,
    // control and board have different numbers of consoles or of commands
    CountsDiffer,
    // two controls side by side would pass the limits
    DoesNotFit,
    // a sequence of over 64 commands is compared with another
    SequenceTooLong,
    // a board has 1 to 12 consoles and 1 to 24 commands
    BoardLimits,
    // an output is shorter than the sheet that is to be written into it
    OutputTooShort {
        needed: usize,
    },
}

// What a refusal tells: its number and, for a fault in a sheet, the place as a byte offset, the
// line and the block from 1. All but the number are 0 where no sheet and no length is at fault.
#[derive(Clone, Copy, PartialEq, Eq, Debug)]
pub struct Told {
    pub number: usize,
    pub place: usize,
    pub line: usize,
    pub block: usize,
}

impl Told {
    // A refusal that tells no place, line or block. A site is told refusals by number, and the numbers
    // stand here alone.
    fn number_alone(number: usize) -> Told
        ensures { result ≡ number_alone number }
    {
        Told {
            number,
            place: 0,
            line: 0,
            block: 0,
        }
    }
}

impl From<Refusal> for Told {
    ghost from_gives = { λ refusal told. told ≡ told_of refusal };

    fn from(refusal: Refusal) -> Told {
        match refusal {
            Refusal::SheetTooLong => Told {
                place: MOST_SHEET_BYTES,
                ..Told::number_alone(1)
            },
            Refusal::TableStoreTooSmall => Told::number_alone(2),
            Refusal::Fault {
                cause,
                place,
                line,
                block,
            } => Told {
                number: cause as usize,
                place,
                line,
                block,
            },
            Refusal::NoSuchConsole => Told::number_alone(7),
            Refusal::NoSuchCommand => Told::number_alone(8),
            Refusal::SelfFlow => Told::number_alone(9),
            Refusal::CountsDiffer => Told::number_alone(10),
            Refusal::DoesNotFit => Told::number_alone(11),
            Refusal::SequenceTooLong => Told::number_alone(14),
            Refusal::BoardLimits => Told::number_alone(15),
            Refusal::OutputTooShort { needed } => Told {
                place: needed,
                ..Told::number_alone(16)
            },
        }
    }
}

impl Refusal {
    pub fn told(self) -> Told
        ensures { result ≡ told_of self }
    {
        self.into()
    }
}

// The four values on one line.
impl fmt::Display for Told {
    ghost output = { λ told. Some (values_of told) };

    fn fmt<W: fmt::Write>(&self, f: &mut fmt::Formatter<W>) -> fmt::Result {
        let Told {
            number,
            place,
            line,
            block,
        } = *self;
        write!(f, "{number} {place} {line} {block}")
    }
}

// Why a call is refused, in words.
impl fmt::Display for Refusal {
    ghost output = { λ refusal. Some (reason_of refusal) };

    fn fmt<W: fmt::Write>(&self, f: &mut fmt::Formatter<W>) -> fmt::Result {
        f.write_str(match self {
            Refusal::SheetTooLong => "the sheet has more than 40960 bytes",
            Refusal::TableStoreTooSmall => "the store has no room for a table",
            Refusal::Fault { .. } => "the sheet has a fault",
            Refusal::NoSuchConsole => "there is no such console",
            Refusal::NoSuchCommand => "there is no such command",
            Refusal::SelfFlow => "every console may affect itself",
            Refusal::CountsDiffer => "control and board differ in consoles or commands",
            Refusal::DoesNotFit => "the two controls do not fit side by side",
            Refusal::SequenceTooLong => "a sequence has more than 64 commands",
            Refusal::BoardLimits => "a board has 1 to 12 consoles and 1 to 24 commands",
            Refusal::OutputTooShort { .. } => "the output is shorter than the sheet",
        })
    }
}
