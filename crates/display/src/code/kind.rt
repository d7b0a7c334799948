// The display kind of codes. A store's entry is the number itself.
ghost use Rattle.std.specs.Prelude.{◌≡◌, refl};
ghost use Rattle.display.specs.Codes.{CodeSamenessIsEquality, code_kind, code_mark, code_reads, code_stored, code_cell};
ghost use Rattle.std.proofs.Common.{arith, rules};
ghost use Rattle.display.specs.MarksLemmas.{decimal_length, decimal_marks};
ghost use Rattle.display.specs.CodesLemmas.{codes_read_back, codes_read_alone, code_when_fits};

use crate::code::Code;
use crate::kind::DisplayKind;
use mark::cause::Cause;
use mark::token::Token;
use mark::writing::Mark;

impl DisplayKind for Code {
    type Cell = u16;

    ghost kind = { code_kind };

    ghost marked = { code_mark };

    ghost reads = { code_reads };

    ghost stored = { code_stored };

    ghost cell = { code_cell };

    ghost zero = { code_stored 0 };

    ghost named = { refl };

    ghost mark_some = { λ x. (decimal_length x.number (omega (arith, x.fits))).0 };

    ghost mark_short = { λ x. omega (arith, (decimal_length x.number (omega (arith, x.fits))).1) };

    ghost mark_bytes = { λ x. decimal_marks x.number (omega (arith, x.fits)) };

    ghost reads_back = { λ x. codes_read_back x };

    ghost reads_alone = { λ bs x e. codes_read_alone bs x e };

    ghost keeps = { λ x. code_when_fits x.number (λ c. c) _ x refl };

    fn kind_name() -> &'static str {
        "code"
    }

    fn mark(&self) -> Mark {
        let mut mark = Mark::new();
        mark.push_decimal(u32::from(self.number));
        mark
    }

    fn read(run: &[u8]) -> Result<Code, Cause> {
        match Token::sort(run, 0)? {
            Token::Name { .. } => Err(Cause::NotDue),
            Token::Negative { .. } => Err(Cause::OutOfRange),
            Token::Number { value, .. } => Code::try_from(value),
        }
    }

    fn from_cell(held: u16) -> Code {
        Code::from(held)
    }

    fn to_cell(&self) -> u16 {
        self.number
    }

    fn zero() -> Code {
        Code::from(0)
    }
}

// Codes that a console shows alike are one code, and a code is the same as itself.
pub fn code_sameness_is_equality()
    ensures { CodeSamenessIsEquality }
{}
