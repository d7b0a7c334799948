// How counts and numbers that are out of range are read, and whether numbers are in range.
ghost use Rattle.std.specs.Prelude.{◌≡◌};
ghost use Rattle.theory.specs.Limits.{count_read, number_read};
ghost use Rattle.theory.specs.Runs.{all_below};

// A count out of range is read as 1.
pub(crate) fn read_count(most: usize, count: usize) -> usize
    ensures { result ≡ count_read most count }
{
    if 1 <= count && count <= most {
        count
    } else {
        1
    }
}

// A number out of range is read as 0.
pub(crate) fn read_number(count: usize, number: usize) -> usize
    ensures { result ≡ number_read count number }
{
    if number < count { number } else { 0 }
}

// Whether each of the numbers is below `count`.
pub fn all_below(count: usize, numbers: &[u8]) -> bool
    ensures { result ≡ all_below count numbers.now }
{
    numbers.iter().all(|number| usize::from(*number) < count)
}
