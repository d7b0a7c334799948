// Codes: numbers from 0 to 65535, each the same as its equal only.
ghost use Rattle.std.specs.Prelude.{◌<◌};

pub mod convert;
pub mod kind;

#[derive(Clone, Copy, PartialEq, Eq, Debug)]
pub struct Code {
    number: u16,
    ghost fits: { number < 65536 },
}
