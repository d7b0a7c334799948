// A kind of display: its name, when two displays are the same, and the mark that stands for one in a sheet.
ghost use Rattle.std.specs.Prelude.{◌≡◌, ℕ, ◌≤◌, true, List, length, Ok, Result};
ghost use Rattle.mark.specs.Runs.{is_name, each};
ghost use Rattle.mark.specs.Writing.{text_of};
ghost use Rattle.mark.specs.declared.cause.Cause.{Cause};
ghost use Rattle.display.specs.Marks.{mark_byte};
ghost use Rattle.display.specs.Sameness.{IsSameness};

use mark::cause::Cause;
use mark::writing::Mark;

// Two displays are the same to whoever looks at the console where they are equal by `==`.
pub trait DisplayKind: Copy + Eq {
    // what one entry of a table's store is
    type Cell: Copy;

    // the kind's name, as it stands in a sheet
    ghost kind: { List ℕ };

    // the bytes that stand for a display in a sheet
    ghost marked: { Self → List ℕ };

    // what a run of bytes is read as where a display of this kind is due
    ghost reads: { List ℕ → Result Self Cause };

    // what an entry of a store is read as, and the entry for a display
    ghost stored: { Self.Cell → Self };

    ghost cell: { Self → Self.Cell };

    // what an entry that a store lacks is read as
    ghost zero: { Self };

    fn kind_name() -> &'static str
        ensures { result.now ≡ kind };

    fn mark(&self) -> Mark
        ensures { text_of result ≡ marked self.now };

    fn read(run: &[u8]) -> Result<Self, Cause>
        ensures { result ≡ reads run.now };

    fn from_cell(held: Self::Cell) -> Self
        ensures { result ≡ stored held };

    fn to_cell(&self) -> Self::Cell
        ensures { result ≡ cell self.now };

    fn zero() -> Self
        ensures { result ≡ zero };

    ghost named: { is_name kind ≡ true };

    ghost mark_some: { (x : Self) → 1 ≤ length (marked x) };

    ghost mark_short: { (x : Self) → length (marked x) ≤ 8 };

    ghost mark_bytes: { (x : Self) → each mark_byte (marked x) ≡ true };

    ghost reads_back: { (x : Self) → reads (marked x) ≡ Ok x };

    ghost reads_alone: { (bs : List ℕ) (x : Self) → reads bs ≡ Ok x → bs ≡ marked x };

    ghost keeps: { (x : Self) → stored (cell x) ≡ x };
}

// Whether two displays are the same to whoever looks at the console.
pub fn same<D: DisplayKind>(left: &D, right: &D) -> bool
    ensures { result ≡ D.PartialEq.eq left.now right.now }
{
    left == right
}

// Of each kind, sameness is an equivalence.
pub fn sameness_is_equivalence<D: DisplayKind>()
    ensures { IsSameness D.PartialEq.eq }
{}
