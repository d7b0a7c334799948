// How far the reading of a sheet has come: the row that is due, its line and its place.
ghost use Rattle.std.specs.Prelude.{◌≡◌};
ghost use Rattle.sheet.specs.Passes.{Ready, Went, started};

use crate::due::{Block, Due};
use crate::fault::SheetFault;
use crate::heading::{COUNTS_LINE, Heading};
use crate::marks::Cursor;
use crate::rows;
use crate::rows::Entry;
use display::kind::DisplayKind;

#[derive(Clone, Copy)]
pub struct Progress<'a> {
    // none once only flows can follow
    pub due: Option<Due>,
    // counted from 1
    pub line: usize,
    pub cursor: Cursor<'a>,
}

impl<'a> Progress<'a> {
    // Behind the two lines of the first block.
    pub(crate) fn start(cursor: Cursor<'a>) -> Progress<'a>
        ensures { result ≡ started cursor.entry }
    {
        Progress {
            due: Some(Due::Title(Block::Owners)),
            line: COUNTS_LINE + 1,
            cursor,
        }
    }

    // Reads the row that is due, if there is one, and goes on to the row after it.
    pub(crate) fn next<D: DisplayKind>(
        &mut self,
        heading: &Heading,
    ) -> Result<Option<(Due, Entry<D>)>, SheetFault>
        requires { Ready heading.now.counts self.old }
        ensures { Went D.DisplayKind.reads heading.now self.old result self.new }
    {
        let Some(due) = self.due else {
            return Ok(None);
        };
        let line = self.line;
        let entry = rows::row(&mut self.cursor, heading, due).map_err(|fault| fault
            .on_line(line)
            .in_block(due.block()))?;
        self.due = due.after(heading);
        self.line += 1;
        Ok(Some((due, entry)))
    }
}
