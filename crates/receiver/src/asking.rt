// A sheet read as the kind of display that it names, and a question put to the board and the control that it says.
ghost use Rattle.std.specs.Prelude.{◌≡◌, replicate};
ghost use Rattle.sheet.specs.Calls.{read_answer};
ghost use Rattle.receiver.specs.Answers.{AnsweredAs, Asked};

use crate::question::Question;
use control::table::{DISPLAYS, OWNERS, STEPS, Store, Table};
use display::code::Code;
use display::kind::DisplayKind;
use display::reading::Reading;
use policy::refusal::Refusal;
use sheet::exact::read_is_written;
use sheet::kinds::names_readings;
use sheet::reader::read;

// The sheet's displays are of one kind.
fn ask_as<D: DisplayKind, Q: Question>(
    sheet: &[u8],
    question: &Q,
    displays: &mut [D::Cell],
) -> Result<Q::Answer, Refusal>
    requires { displays.old ≡ replicate 1200 (D.DisplayKind.cell D.DisplayKind.zero) }
    ensures { AnsweredAs (Q.Question.answered question.now) D.DisplayKind.marked D.DisplayKind.zero (read_answer D.DisplayKind.kind D.DisplayKind.reads 2400 24 1200 sheet.now) result }
{
    read_is_written::<D>();
    let mut steps = [0; STEPS];
    let mut owners = [0; OWNERS];
    let found = read::<D>(sheet, &mut steps, &mut owners, displays)?;
    let store = Store {
        steps: &steps,
        owners: &owners,
        displays,
    };
    let table: Table<'_, D> = Table::new(found.counts, found.start, store)?;
    Ok(question.ask(found.board, &table))
}

// As codes, or as readings where the sheet names them.
pub fn ask<Q: Question>(sheet: &[u8], question: &Q) -> Result<Q::Answer, Refusal>
    ensures { Asked (Q.Question.answered question.now) sheet.now result }
{
    match ask_as::<Code, Q>(sheet, question, &mut [Code::zero().to_cell(); DISPLAYS]) {
        Ok(answer) => Ok(answer),
        Err(refusal) if names_readings(sheet, refusal) => ask_as::<Reading, Q>(
            sheet,
            question,
            &mut [Reading::zero().to_cell(); DISPLAYS],
        ),
        Err(refusal) => Err(refusal),
    }
}
