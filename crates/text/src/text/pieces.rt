// How a text is gathered: a byte, a string or a number at a time.
ghost use Rattle.std.specs.Prelude.{◌≡◌, ◌≤◌, [], ◌∷◌, length};
ghost use Rattle.text.specs.Content.{content, Gains};

use super::{CAPACITY, Text};
use itoa::{Buffer, Integer};

impl Text {
    // The most bytes that a text holds.
    pub const CAPACITY: usize = CAPACITY;

    pub fn new() -> Text
        ensures empty { content result ≡ [] }
    {
        Text {
            bytes: [0; CAPACITY],
            len: 0,
        }
    }

    pub fn as_bytes(&self) -> &[u8]
        ensures content { result.now ≡ content self.now }
    {
        &self.bytes[..self.len]
    }

    #[tactic(auto, using(crate::proofs::Fitting::one_fits, crate::proofs::Fitting::none_fits))]
    pub fn push(&mut self, byte: u8)
        ensures gains { Gains self.old (byte ∷ []) self.new }
    {
        if self.len < CAPACITY {
            self.bytes[self.len] = byte;
            self.len += 1;
        }
    }

    #[tactic(auto, using(crate::proofs::Fitting::front_fits))]
    pub fn push_str(&mut self, piece: &str)
        ensures gains { Gains self.old piece.now self.new }
    {
        let fits = (CAPACITY - self.len).min(piece.len());
        self.bytes[self.len..self.len + fits].copy_from_slice(&piece.as_bytes()[..fits]);
        self.len += fits;
    }

    // The number's decimal digits, with no leading zero, and a minus before a number below zero.
    pub fn push_number<I: Integer>(&mut self, number: I)
        ensures gains { Gains self.old (I.text number) self.new }
        ensures short { length (I.text number) ≤ I.MAX_STR_LEN }
    {
        self.push_str(Buffer::new().format(number));
    }
}
