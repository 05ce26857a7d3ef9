// A memory whose owner's writes wait in a store queue, as under a processor that has one; it never holds back more than eight.
// A write never overtakes an older one, and none lands but when the queue is full, at a fence, or when time passes.
ghost use Rattle.std.specs.Prelude.{◌≡◌, ◌≤◌};
ghost use Rattle.arrayvec.specs.ArrayVec.{array_vec_len};

use crate::memory::Memory;
use crate::words::{Words, Write};
use arrayvec::ArrayVec;

const CAPACITY: usize = 8;

#[derive(Drop)]
pub struct Queued {
    words: Words,
    // The writes that wait, oldest first.
    queue: ArrayVec<Write, CAPACITY>,
    // The vector's own bound, which its value in a clause does not show.
    ghost within: { array_vec_len queue ≤ 8 },
}

impl Queued {
    ghost use Rattle.memory.specs.Kept.{queued_meaning, zeroed};
    ghost use Rattle.memory.specs.Meaning.{settled};

    pub fn new() -> Self
        ensures starts { queued_meaning result ≡ zeroed }
    {
        Queued {
            words: Words::default(),
            queue: ArrayVec::new(),
        }
    }

    // The words as the owner reads them.
    fn owner_words(&self) -> Words
        ensures settles { result ≡ settled (queued_meaning self.now) }
    {
        let mut words = self.words;
        for write in self.queue.as_slice() {
            words.land(*write);
        }
        words
    }
}

impl Memory for Queued {
    ghost use Rattle.memory.specs.Kept.{queued_meaning, queued_lands};
    ghost use Rattle.std.proofs.Common.{rules};

    ghost meaning = { queued_meaning };

    ghost picks = { λ access n m. n ≡ queued_lands access m };

    ghost few = { Prim.search rules };

    fn owner_pair(&self) -> (u16, u16) {
        let words = self.owner_words();
        (words.tail, words.split)
    }

    fn owner_tail(&self) -> u16 {
        self.owner_words().tail
    }

    fn owner_request(&self) -> bool {
        self.owner_words().request
    }

    fn helper_flag(&self) -> bool {
        self.words.flag
    }

    fn helper_pair(&self) -> (u16, u16) {
        (self.words.tail, self.words.split)
    }

    fn helper_request(&self) -> bool {
        self.words.request
    }

    fn swap(&mut self, tail: u16, split: u16) -> bool {
        self.words.swap(tail, split)
    }

    fn ask(&mut self) {
        self.words.ask();
    }

    fn write(&mut self, write: Write) -> u8 {
        if !self.queue.is_full() {
            self.queue.push(write);
            return 0;
        }
        // The queue is full: the oldest write makes room.
        let landed = self.queue.remove(0);
        self.words.land(landed);
        self.queue.push(write);
        1
    }

    fn fence(&mut self) -> u8 {
        let landed = self.queue.len() as u8;
        self.words = self.owner_words();
        self.queue.clear();
        landed
    }

    fn land(&mut self) -> u8 {
        if self.queue.is_empty() {
            return 0;
        }
        let oldest = self.queue.remove(0);
        self.words.land(oldest);
        1
    }
}
