// A lent output, written from its front: what passes its end is left off and still counted.
ghost use Rattle.std.specs.Prelude.{◌∷◌, [], ◌++◌, decimal};

use itoa::Buffer;

// No `fmt::Write`: `write!` may end in an error by its contract, and the writer's answer has none.
#[derive(Drop)]
pub(crate) struct Output<'a> {
    pub(crate) bytes: &'a mut [u8],
    // how many bytes were written; past the last number that there is the count stays there
    pub(crate) at: usize,
}

impl Output<'_> {
    ghost use Rattle.sheet.specs.Written.{Writes};

    fn push(&mut self, byte: u8)
        ensures { Writes self.old (byte ∷ []) self.new }
    {
        if self.at < self.bytes.len() {
            self.bytes[self.at] = byte;
        }
        self.at = self.at.saturating_add(1);
    }

    // Not shared with `Mark::push_all`: a mark stops at eight bytes, an output counts on.
    pub(crate) fn text(&mut self, bytes: &[u8])
        ensures { Writes self.old bytes.now self.new }
    {
        for byte in bytes {
            self.push(*byte);
        }
    }

    // A word of a line, and the byte that parts it from what comes next.
    pub(crate) fn word(&mut self, bytes: &[u8], next: u8)
        ensures { Writes self.old (bytes.now ++ (next ∷ [])) self.new }
    {
        self.text(bytes);
        self.push(next);
    }

    // The same for a number in decimal.
    pub(crate) fn number(&mut self, n: usize, next: u8)
        ensures { Writes self.old (decimal n ++ (next ∷ [])) self.new }
    {
        self.word(Buffer::new().format(n).as_bytes(), next);
    }
}
