// Writing a mark: a byte, a text, or a number in decimal; reading it back as a slice.
ghost use Rattle.std.specs.Prelude.{◌≡◌, [], ◌∷◌, ◌++◌, take, decimal};
ghost use Rattle.mark.specs.Writing.{text_of};

use crate::writing::Mark;
use itoa::{Buffer, Integer};

impl Mark {
    pub fn new() -> Mark
        ensures { text_of result ≡ [] }
    {
        Mark {
            bytes: [0; 8],
            length: 0,
        }
    }

    pub fn text(&self) -> &[u8]
        ensures { result.now ≡ text_of self.now }
    {
        &self.bytes[..self.length]
    }

    // One byte more; what passes the eighth is left off.
    #[tactic(auto, using(crate::proofs::Writes::one_more))]
    pub fn push(&mut self, byte: u8)
        ensures { text_of self.new ≡ take 8 (text_of self.old ++ (byte ∷ [])) }
    {
        if self.length < 8 {
            self.bytes[self.length] = byte;
            self.length += 1;
        }
    }

    // All of `bytes`, as far as there is room.
    pub fn push_all(&mut self, bytes: &[u8])
        ensures { text_of self.new ≡ take 8 (text_of self.old ++ bytes.now) }
    {
        let many = bytes.len().min(8 - self.length);
        let end = self.length + many;
        self.bytes[self.length..end].copy_from_slice(&bytes[..many]);
        self.length = end;
    }

    // The number in decimal: its digits, after a minus where it is below 0.
    pub fn push_number<I: Integer>(&mut self, n: I)
        ensures { text_of self.new ≡ take 8 (text_of self.old ++ I.text n) }
    {
        self.push_all(Buffer::new().format(n).as_bytes());
    }

    // The same for a number whose type is known, so that a caller's literal needs none.
    pub fn push_decimal(&mut self, n: u32)
        ensures { text_of self.new ≡ take 8 (text_of self.old ++ decimal n) }
    {
        self.push_number(n);
    }
}
