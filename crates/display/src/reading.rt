// Readings: a temperature in tenths of a degree Celsius from -1200 to 1200, or none.
ghost use Rattle.std.specs.Prelude.{◌≡◌, true};
ghost use Rattle.display.specs.Ranges.{in_range};

pub mod convert;
pub mod kind;

#[derive(Clone, Copy, PartialEq, Eq, Debug)]
pub struct Tenths {
    count: i16,
    ghost range: { in_range count ≡ true },
}

pub type Reading = Option<Tenths>;
