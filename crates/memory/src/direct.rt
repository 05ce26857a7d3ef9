// A memory whose owner's writes land at once, as under a processor that keeps no store queue.
// It never holds a write back, so owner and helpers always read the same words.
ghost use Rattle.std.specs.Prelude.{◌≡◌};
ghost use Rattle.memory.specs.Kept.{direct_meaning, direct_lands, zeroed};
ghost use Rattle.std.proofs.Common.{rules};

use crate::memory::Memory;
use crate::words::{Words, Write};

#[derive(Drop)]
pub struct Direct {
    words: Words,
}

impl Direct {
    pub fn new() -> Self
        ensures starts { direct_meaning result ≡ zeroed }
    {
        Direct {
            words: Words::default(),
        }
    }
}

impl Memory for Direct {
    ghost meaning = { direct_meaning };

    ghost picks = { λ access n m. n ≡ direct_lands access m };

    ghost few = { Prim.search rules };

    fn owner_pair(&self) -> (u16, u16) {
        (self.words.tail, self.words.split)
    }

    fn owner_tail(&self) -> u16 {
        self.words.tail
    }

    fn owner_request(&self) -> bool {
        self.words.request
    }

    fn helper_flag(&self) -> bool {
        self.words.flag
    }

    fn helper_pair(&self) -> (u16, u16) {
        (self.words.tail, self.words.split)
    }

    fn helper_request(&self) -> bool {
        self.words.request
    }

    fn swap(&mut self, tail: u16, split: u16) -> bool {
        self.words.swap(tail, split)
    }

    fn ask(&mut self) {
        self.words.ask();
    }

    fn write(&mut self, write: Write) -> u8 {
        self.words.land(write);
        1
    }

    fn fence(&mut self) -> u8 {
        self.land()
    }

    fn land(&mut self) -> u8 {
        0
    }
}
