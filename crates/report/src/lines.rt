// Columns of text, byte by byte, in a growing text.
ghost use Rattle.std.specs.Prelude.{◌≡◌, ◌++◌, OnOk};
ghost use Rattle.report.specs.Lines.{padded};

use std::alloc::AllocError;
use std::iter::repeat_n;

// The word at the right end of a column. For marks, which are bytes: `{:>12}` pads texts alone.
pub fn push_padded(text: &mut Vec<u8>, width: usize, word: &[u8]) -> Result<(), AllocError>
    ensures { OnOk result (text.new.items ≡ text.old.items ++ padded width word.now) }
{
    text.extend(repeat_n(b' ', width.saturating_sub(word.len())))?;
    text.extend_from_slice(word)?;
    Ok(())
}
