// What the first block of a sheet says.
ghost use Rattle.sheet.specs.Due.{Within};

use control::table::Counts;

#[derive(Clone, Copy)]
pub struct Heading {
    pub counts: Counts,
    pub start: usize,
    ghost within: { Within counts },
}

// the number of the first block, and the lines of its names and of its row, all counted from 1
pub(crate) const COUNTS_BLOCK: usize = 1;

pub(crate) const NAMES_LINE: usize = 1;

pub(crate) const COUNTS_LINE: usize = 2;
