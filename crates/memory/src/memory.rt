// What the owner and the helpers of a deque can do to its shared words.
// It says how many of the owner's writes a call may land, and never which of these numbers a memory picks.
ghost use Rattle.std.specs.Prelude.{◌≡◌, ℕ, ◌≤◌, length};
ghost use Rattle.memory.specs.Meaning.{Meaning, Access, settled, pair, swap_passes, puts, fences, lands, tries, asks, after, MayLand};

use crate::words::Write;

// The owner sees its own writes at once; a helper sees only those that have landed.
// No method has a body here, since a memory need not keep its words in a struct.
pub trait Memory {
    ghost meaning: { Self → Meaning };

    // What a memory promises of its own choice, the number of writes that it lands, beyond what every memory may land.
    ghost picks: { Access → ℕ → Meaning → Type 0 } = { λ _ _ _. Unit {0} };

    fn owner_pair(&self) -> (u16, u16)
        ensures reads_settled { result ≡ pair (settled (meaning self.now)) };

    fn owner_tail(&self) -> u16
        ensures reads_settled { result ≡ (settled (meaning self.now)).tail };

    fn owner_request(&self) -> bool
        ensures reads_settled { result ≡ (settled (meaning self.now)).request };

    fn helper_flag(&self) -> bool
        ensures reads_landed { result ≡ (meaning self.now).words.flag };

    fn helper_pair(&self) -> (u16, u16)
        ensures reads_landed { result ≡ pair (meaning self.now).words };

    fn helper_request(&self) -> bool
        ensures reads_landed { result ≡ (meaning self.now).words.request };

    // A helper's steal: the pair goes from `(tail, split)` to `(tail + 1, split)`, or the call changes nothing.
    fn swap(&mut self, tail: u16, split: u16) -> bool
        ensures passed { result ≡ swap_passes tail split (meaning self.old).words }
        ensures after { meaning self.new ≡ after (tries tail split) 0 (meaning self.old) };

    // A helper's request for more shared jobs.
    fn ask(&mut self)
        ensures after { meaning self.new ≡ after asks 0 (meaning self.old) };

    // The owner's write, and how many of its writes landed, this one perhaps among them.
    fn write(&mut self, write: Write) -> u8
        ensures lands { MayLand (puts write) result (meaning self.old) }
        ensures picks { picks (puts write) result (meaning self.old) }
        ensures after { meaning self.new ≡ after (puts write) result (meaning self.old) };

    // Lands every write that waits, and says how many there were.
    fn fence(&mut self) -> u8
        ensures lands { MayLand fences result (meaning self.old) }
        ensures picks { picks fences result (meaning self.old) }
        ensures after { meaning self.new ≡ after fences result (meaning self.old) };

    // Time passes: one waiting write or more land, if any waits, and the answer says how many.
    fn land(&mut self) -> u8
        ensures lands { MayLand lands result (meaning self.old) }
        ensures picks { picks lands result (meaning self.old) }
        ensures after { meaning self.new ≡ after lands result (meaning self.old) };

    // A law, which every `impl` proves: a store queue is short, so that a `u8` counts what lands.
    ghost few: { (m : Self) → length (meaning m).waiting ≤ 64 };
}
