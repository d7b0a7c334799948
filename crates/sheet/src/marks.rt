// Marks: the runs of a sheet, cut and sorted, and read as what is due by a cursor over the sheet.
ghost use Rattle.std.specs.Prelude.{◌≡◌, ◌+◌, ◌≤◌, map, length, position, IfOk, Ok, Err, MatchResult};
ghost use Rattle.sheet.specs.Marks.{blank, newline, ends_run, run_of, mark_at, byte_at, item_at, name_reads, number_reads, exact_reads};
ghost use Rattle.sheet.specs.Faults.{mark_fault, behind, place_behind};
ghost use Rattle.sheet.specs.Reading.{names_at, exacts_at};

use crate::fault::MarkFault;
use display::kind::DisplayKind;
use mark::cause::Cause;
use mark::token::Token;

// Whether the byte ends a run.
fn ends_run(byte: u8) -> bool
    ensures { result ≡ ends_run byte }
{
    byte == b' ' || byte == b'\n'
}

// Where the first byte stands that ends a run.
fn run_end(rest: &[u8]) -> Option<usize>
    ensures { result ≡ position ends_run rest.now }
{
    rest.iter().position(|byte| ends_run(*byte))
}

// The run that bytes begin with, which ends before such a byte or with the last one.
#[tactic(auto, using(crate::proofs::Cuts::cut))]
pub(crate) fn run_of(rest: &[u8]) -> &[u8]
    ensures run { result.now ≡ run_of rest.now }
    ensures within { length result.now ≤ length rest.now }
{
    match run_end(rest) {
        Some(end) => &rest[..end],
        None => rest,
    }
}

// The name that is due, read from its run.
fn name_in(run: &[u8], at: usize, due: &[u8]) -> Result<(), Cause>
    ensures { result ≡ name_reads due.now run.now }
{
    match Token::sort(run, at)? {
        Token::Name { run, .. } if run == due => Ok(()),
        Token::Name { .. } | Token::Number { .. } | Token::Negative { .. } => Err(Cause::NotDue),
    }
}

// A number from `least` to `most`, read from its run.
fn number_in(run: &[u8], at: usize, least: usize, most: usize) -> Result<usize, Cause>
    ensures read { result ≡ number_reads least most run.now }
    ensures bound { IfOk result (λ n. (least ≤ n) × (n ≤ most)) }
{
    match Token::sort(run, at)? {
        Token::Number { value, .. } if least <= value as usize && value as usize <= most => {
            Ok(value as usize)
        }
        Token::Number { .. } | Token::Negative { .. } => Err(Cause::OutOfRange),
        Token::Name { .. } => Err(Cause::NotDue),
    }
}

// The number `due` itself, read from its run.
fn exact_in(run: &[u8], at: usize, due: usize) -> Result<usize, Cause>
    ensures { result ≡ exact_reads due run.now }
{
    match Token::sort(run, at)? {
        Token::Number { value, .. } if value as usize == due => Ok(due),
        Token::Name { .. } | Token::Number { .. } | Token::Negative { .. } => Err(Cause::NotDue),
    }
}

// A place in a sheet. What is due there is read, and moves it behind.
#[derive(Clone, Copy)]
pub struct Cursor<'a> {
    pub sheet: &'a [u8],
    pub at: usize,
}

impl<'a> Cursor<'a> {
    // The cause at this place.
    pub(crate) fn fault(&self, cause: Cause) -> MarkFault
        ensures { result ≡ mark_fault cause self.now.at }
    {
        MarkFault::at(cause, self.at)
    }

    // The run that begins here, which is not empty.
    fn run(&self) -> Result<&'a [u8], MarkFault>
        ensures within { IfOk result (λ run. self.now.at + length run.now ≤ length self.now.sheet.now) }
        ensures cut { MatchResult result (λ run. mark_at Ok self.now.sheet.now self.now.at ≡ Ok (run.now, self.now.at + length run.now)) (λ f. mark_at Ok self.now.sheet.now self.now.at ≡ Err f) }
    {
        if self.at >= self.sheet.len() {
            return Err(self.fault(Cause::EndsEarly));
        }
        let run = run_of(&self.sheet[self.at..]);
        if run.is_empty() {
            return Err(self.fault(Cause::NoMark));
        }
        Ok(run)
    }

    // The byte that is due.
    fn byte(&mut self, due: u8) -> Result<(), MarkFault>
        ensures read { place_behind result self.new.at ≡ byte_at due self.old.sheet.now self.old.at }
        ensures sheet { self.new.sheet ≡ self.old.sheet }
    {
        match self.sheet.get(self.at) {
            None => Err(self.fault(Cause::EndsEarly)),
            Some(byte) if *byte != due => Err(self.fault(Cause::NotDue)),
            Some(_) => {
                self.at += 1;
                Ok(())
            }
        }
    }

    // What the run that begins here is read as, and the byte behind it.
    fn item<T: Copy, F: FnOnce(&[u8], usize) -> Result<T, Cause>>(
        &mut self,
        read: F,
        then: u8,
    ) -> Result<T, MarkFault>
        requires { F.IsAlwaysCallable read }
        ensures read { (reads : _) → ((run : _) (at : _) (r : _) → F.post read run at r → r ≡ reads run.now) → behind result self.new.at ≡ item_at reads then self.old.sheet.now self.old.at }
        ensures sheet { self.new.sheet ≡ self.old.sheet }
        ensures mark { IfOk result (λ x. (run : _) × (at : _) × F.post read run at (Ok x)) }
    {
        let run = self.run()?;
        let place = self.at;
        let mark = read(run, place).map_err(|cause| MarkFault::at(cause, place))?;
        self.at = place + run.len();
        self.byte(then)?;
        Ok(mark)
    }

    // A name that is due and the byte behind it.
    pub(crate) fn name(&mut self, due: &[u8], then: u8) -> Result<(), MarkFault>
        ensures read { behind result self.new.at ≡ item_at (name_reads due.now) then self.old.sheet.now self.old.at }
        ensures sheet { self.new.sheet ≡ self.old.sheet }
    {
        self.item(|run, at| name_in(run, at, due), then)
    }

    // A number from `least` to `most` and the byte behind it.
    pub(crate) fn ranged(&mut self, least: usize, most: usize, then: u8) -> Result<usize, MarkFault>
        ensures read { behind result self.new.at ≡ item_at (number_reads least most) then self.old.sheet.now self.old.at }
        ensures sheet { self.new.sheet ≡ self.old.sheet }
        ensures bound { IfOk result (λ n. (least ≤ n) × (n ≤ most)) }
    {
        self.item(|run, at| number_in(run, at, least, most), then)
    }

    // A number that is due itself and the blank behind it.
    pub(crate) fn exact(&mut self, due: usize) -> Result<usize, MarkFault>
        ensures read { behind result self.new.at ≡ item_at (exact_reads due) blank self.old.sheet.now self.old.at }
        ensures sheet { self.new.sheet ≡ self.old.sheet }
    {
        self.item(|run, at| exact_in(run, at, due), b' ')
    }

    // A display and the newline behind it; the kind reads the run itself.
    pub(crate) fn display<D: DisplayKind>(&mut self) -> Result<D, MarkFault>
        ensures read { behind result self.new.at ≡ item_at D.DisplayKind.reads newline self.old.sheet.now self.old.at }
        ensures sheet { self.new.sheet ≡ self.old.sheet }
    {
        self.item(|run, _| D::read(run), b'\n')
    }

    // The names of a title, a blank between and a newline behind.
    pub(crate) fn names(&mut self, due: &[&[u8]]) -> Result<(), MarkFault>
        ensures read { place_behind result self.new.at ≡ names_at (map (λ x. x.now) due.now) self.old.sheet.now self.old.at }
        ensures sheet { self.new.sheet ≡ self.old.sheet }
    {
        let Some((last, before)) = due.split_last() else {
            return Ok(());
        };
        for word in before {
            self.name(word, b' ')?;
        }
        self.name(last, b'\n')
    }

    // The numbers that a row begins with.
    pub(crate) fn exacts(&mut self, due: &[usize]) -> Result<(), MarkFault>
        ensures read { place_behind result self.new.at ≡ exacts_at due.now self.old.sheet.now self.old.at }
        ensures sheet { self.new.sheet ≡ self.old.sheet }
    {
        for number in due {
            self.exact(*number)?;
        }
        Ok(())
    }
}
