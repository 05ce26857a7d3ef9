// A deque on which nothing stands.
ghost use Rattle.std.specs.Prelude.{◌≡◌, true, false, []};
ghost use Rattle.deque.specs.Making.{new_owner, nothing_shared};

use super::Deque;
use memory::{Memory, Write};
use model::{Owner, Phase};

fn new_owner<J, O>(size: u16) -> Owner<J, O>
    ensures owner { result ≡ new_owner size }
{
    Owner {
        size,
        head: 0,
        own_split: 0,
        own_flag: true,
        told: 0,
        phase: Phase::Idle,
    }
}

impl<M: Memory, J: Copy, O: Copy> Deque<M, J, O> {
    // A deque with no position, whose memory is as it was handed in.
    pub fn new(memory: M) -> Deque<M, J, O>
        ensures memory { result.memory ≡ memory }
        ensures owner { result.owner ≡ new_owner 0 }
    {
        Deque {
            memory,
            owner: new_owner(0),
        }
    }

    // Makes it empty, with so many positions: nothing waits, and nothing is there to steal.
    pub fn clear(&mut self, size: u16)
        ensures memory { M.meaning self.new.memory ≡ nothing_shared }
        ensures owner { self.new.owner ≡ new_owner size }
    {
        let _ = self.memory.fence();
        let _ = self.memory.write(Write::Pair { tail: 0, split: 0 });
        let _ = self.memory.write(Write::Flag(true));
        let _ = self.memory.write(Write::Request(false));
        let _ = self.memory.fence();
        self.owner = new_owner(size);
    }
}
