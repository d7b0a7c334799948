// The display kind of readings. A store's entry is a count of tenths, or none.
ghost use Rattle.std.specs.Prelude.{◌≡◌, pos, Some, None, Ok, Err};
ghost use Rattle.mark.specs.declared.cause.Cause.TheVariants.{OutOfRange};
ghost use Rattle.display.specs.Readings.{ReadingSamenessIsEquality, reading_kind, reading_mark, reading_reads, reading_stored, reading_cell, tenths_when, tenths_stored};
ghost use Rattle.display.specs.ReadingsLemmas.{readings_read_back, readings_read_alone, readings_keep, signed_length, signed_marks};
ghost use Rattle.std.proofs.Common.{arith, lit≤, refl, rules};

use crate::kind::DisplayKind;
use crate::reading::{Reading, Tenths};
use mark::cause::Cause;
use mark::token::Token;
use mark::writing::Mark;

// The reading of a count, where it is in range.
fn counted(count: i64) -> Result<Reading, Cause>
    ensures { result ≡ tenths_when count (λ x. Ok (Some x)) (Err OutOfRange) }
{
    Tenths::try_from(count).map(Some)
}

// The tenths of a store's entry: 0 where the count is out of range.
fn stored(count: i16) -> Tenths
    ensures { result ≡ tenths_stored count }
{
    Tenths::try_from(i64::from(count)).unwrap_or(Tenths { count: 0 })
}

impl DisplayKind for Reading {
    type Cell = Option<i16>;

    ghost kind = { reading_kind };

    ghost marked = { reading_mark };

    ghost reads = { reading_reads };

    ghost stored = { reading_stored };

    ghost cell = { reading_cell };

    ghost zero = { reading_stored (Some (pos 0)) };

    ghost named = { refl };

    ghost mark_some = { elim [ None ↦ lit≤ tt | Some x ↦ (signed_length x.count x.range).0 ] };

    ghost mark_short = { elim [ None ↦ lit≤ tt | Some x ↦ omega (arith, (signed_length x.count x.range).1) ] };

    ghost mark_bytes = { elim [ None ↦ refl | Some x ↦ signed_marks x.count x.range ] };

    ghost reads_back = { λ x. readings_read_back x };

    ghost reads_alone = { λ bs x e. readings_read_alone bs x e };

    ghost keeps = { λ x. readings_keep x };

    fn kind_name() -> &'static str {
        "reading"
    }

    fn mark(&self) -> Mark {
        let mut mark = Mark::new();
        match self {
            None => mark.push_all(b"none"),
            Some(tenths) => mark.push_number(tenths.count),
        }
        mark
    }

    fn read(run: &[u8]) -> Result<Reading, Cause> {
        match Token::sort(run, 0)? {
            Token::Name { run: b"none", .. } => Ok(None),
            Token::Name { .. } => Err(Cause::NotDue),
            Token::Number { value, .. } => counted(i64::from(value)),
            Token::Negative { value, .. } => counted(-i64::from(value)),
        }
    }

    fn from_cell(held: Option<i16>) -> Reading {
        held.map(stored)
    }

    fn to_cell(&self) -> Option<i16> {
        self.map(|tenths| tenths.count)
    }

    fn zero() -> Reading {
        Some(Tenths { count: 0 })
    }
}

// Readings that a console shows alike are one reading, and a reading is the same as itself.
pub fn reading_sameness_is_equality()
    ensures { ReadingSamenessIsEquality }
{}
