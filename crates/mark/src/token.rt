// Tokens: a run of bytes sorted into name, number and negative number.
ghost use Rattle.std.specs.Prelude.{◌≡◌, ◌&&◌, MatchResult, if◌then◌else◌, nat_le, drop, Some, None};
ghost use Rattle.mark.specs.Runs.{each, is_name, number_in, NumbersAreDecimals};
ghost use Rattle.mark.specs.Tokens.{is_negative, sort_of, no_mark, IsTokenOf};
ghost use Rattle.mark.specs.declared.cause.Cause.TheVariants.{NoMark};

use crate::cause::Cause;

// Each case holds the run, a part of the sheet, and the offset at which it begins there.
#[derive(Clone, Copy)]
pub enum Token<'a> {
    // 1 to 8 small letters
    Name {
        run: &'a [u8],
        at: usize,
    },
    // 0, or a digit from 1 to 9 and at most four digits more, with the number that it writes
    Number {
        value: u32,
        run: &'a [u8],
        at: usize,
    },
    // a minus before such a number other than 0, with the number behind the minus
    Negative {
        value: u32,
        run: &'a [u8],
        at: usize,
    },
}

// Every byte of the run lies from `low` to `high`.
fn all_between(run: &[u8], low: u8, high: u8) -> bool
    ensures { result ≡ each (λ b. nat_le low b && nat_le b high) run.now }
{
    run.iter().all(|byte| low <= *byte && *byte <= high)
}

fn is_name(run: &[u8]) -> bool
    ensures { result ≡ is_name run.now }
{
    !run.is_empty() && run.len() <= 8 && all_between(run, b'a', b'z')
}

// The number that a run of at most five digits writes, read in one go.
pub fn number(run: &[u8]) -> Option<u32>
    ensures { result ≡ number_in run.now }
{
    if matches!(run, [] | [b'0', _, ..]) || run.len() > 5 {
        return None;
    }
    let mut value: u32 = 0;
    for byte in run {
        if !byte.is_ascii_digit() {
            return None;
        }
        value = value * 10 + u32::from(*byte - b'0');
    }
    Some(value)
}

// The number behind a minus, other than 0.
fn negative(run: &[u8]) -> Option<u32>
    ensures { result ≡ (if is_negative run.now then number_in (drop 1 run.now) else None) }
{
    match run {
        [b'-', b'0', ..] => None,
        [b'-', digits @ ..] => number(digits),
        _ => None,
    }
}

impl<'a> Token<'a> {
    // Sorts a run that begins at offset `at`.
    pub fn sort(run: &'a [u8], at: usize) -> Result<Token<'a>, Cause>
        ensures { MatchResult result (IsTokenOf run.now at) (λ e. (e ≡ NoMark) × (sort_of run.now ≡ no_mark)) }
    {
        if let Some(value) = number(run) {
            return Ok(Token::Number { value, run, at });
        }
        if is_name(run) {
            return Ok(Token::Name { run, at });
        }
        match negative(run) {
            Some(value) => Ok(Token::Negative { value, run, at }),
            None => Err(Cause::NoMark),
        }
    }
}

// What stands in a sheet for a number below 100,000 is its decimal text and nothing else.
pub fn numbers_are_decimals()
    ensures { NumbersAreDecimals }
{}
