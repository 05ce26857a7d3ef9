// The four shared words, and the writes that the owner makes to them.
// A write here lands at once: what waits, and for how long, is a memory's business and never decided here.
ghost use Rattle.std.specs.Prelude.{◌≡◌};
ghost use Rattle.memory.specs.Meaning.{landed, swap_passes, swapped, asked};

// Helpers steal the jobs below `split`, from `tail` on; on paper the flags are written 1 and 0.
#[derive(Clone, Copy, Debug, Default, PartialEq, Eq)]
pub struct Words {
    pub tail: u16,
    pub split: u16,
    // All jobs are stolen.
    pub flag: bool,
    // A helper found nothing shared.
    pub request: bool,
}

#[derive(Clone, Copy, Debug, PartialEq, Eq)]
pub enum Write {
    // Both numbers at once, so that no helper sees one without the other.
    Pair { tail: u16, split: u16 },
    Split(u16),
    Flag(bool),
    Request(bool),
}

// Stands in the unused places of a queue, and means nothing there. By hand, since a derive needs a variant without fields.
impl Default for Write {
    ghost use Rattle.memory.specs.declared.words.Write.TheVariants.{Request};
    ghost use Rattle.std.specs.Prelude.{false};

    ghost is_default = { λ write. write ≡ Request false };

    fn default() -> Self {
        Write::Request(false)
    }
}

impl Words {
    pub fn land(&mut self, write: Write)
        ensures lands { self.new ≡ landed write self.old }
    {
        match write {
            Write::Pair { tail, split } => {
                self.tail = tail;
                self.split = split;
            }
            Write::Split(split) => self.split = split,
            Write::Flag(flag) => self.flag = flag,
            Write::Request(request) => self.request = request,
        }
    }

    // One step for both numbers, so that two helpers never steal the same job.
    pub(crate) fn swap(&mut self, tail: u16, split: u16) -> bool
        ensures passed { result ≡ swap_passes tail split self.old }
        ensures after { self.new ≡ swapped tail split self.old }
    {
        let passes = tail < split && self.tail == tail && self.split == split;
        if passes {
            self.tail = tail + 1;
        }
        passes
    }

    pub(crate) fn ask(&mut self)
        ensures asks { self.new ≡ asked self.old }
    {
        self.request = true;
    }
}
