// A helper's attempt: each step makes one access.
ghost use Rattle.std.specs.Prelude.{◌≡◌, ℕ, List};
ghost use Rattle.model.specs.declared.helper.Aim.TheVariants as aim_at;
ghost use Rattle.model.specs.declared.helper.Helper.{Helper};
ghost use Rattle.model.specs.declared.cell.Cell.{Cell};
ghost use Rattle.model.specs.declared.reply.Answer.TheVariants.{Going};
ghost use Rattle.deque.specs.Doing.{Attempts};

use super::{Attempt, Deque};
use crate::cells;
use crate::replies::reply;
use memory::Memory;
use model::{Access, Aim, Answer, Cell, Refusal};

impl<M: Memory, J: Copy, O: Copy> Deque<M, J, O> {
    // A match on the aim, which is data as the owner's phase is. That it leaves the owner alone is a clause here and below: it
    // is said of a step, and no type can say it.
    pub fn attempt(
        &mut self,
        helper: u8,
        aim: Aim,
        cells: &mut [Cell<J, O>],
    ) -> Result<Attempt<J, O>, Refusal>
        ensures attempts { (helpers : List Helper) → Attempts M.meaning M.picks helper aim self.old cells.old result self.new cells.new helpers }
        ensures owner { self.new.owner ≡ self.old.owner }
    {
        match aim {
            Aim::ReadFlag if self.memory.helper_flag() => {
                Ok(ends(Access::ReadFlag, Answer::AllGone))
            }
            Aim::ReadFlag => Ok(goes_on(Access::ReadFlag, Aim::ReadPair)),
            Aim::ReadPair => self.look(),
            Aim::Swap(pair) => self.steal(helper, pair, cells),
            Aim::ReadRequest if self.memory.helper_request() => {
                Ok(ends(Access::ReadRequest, Answer::NoShare))
            }
            Aim::ReadRequest => Ok(goes_on(Access::ReadRequest, Aim::WriteRequest)),
            Aim::WriteRequest => {
                self.memory.ask();
                Ok(ends(Access::WriteRequest, Answer::NoShare))
            }
            Aim::Hold(_) => Err(Refusal::Holding),
        }
    }

    // Reads the pair, and aims at the oldest job that is shared, if any is.
    fn look(&mut self) -> Result<Attempt<J, O>, Refusal>
        ensures attempts { (helper : ℕ) (cells : List (Cell J O)) (helpers : List Helper) → Attempts M.meaning M.picks helper aim_at.ReadPair self.old cells result self.new cells helpers }
        ensures owner { self.new.owner ≡ self.old.owner }
    {
        let (tail, split) = self.memory.helper_pair();
        if split > self.owner.size {
            return Err(Refusal::Misread);
        }
        let aim = if tail < split {
            Aim::Swap((tail, split))
        } else {
            Aim::ReadRequest
        };
        Ok(goes_on(Access::ReadPair, aim))
    }

    // The job is the helper's only once the swap has passed, so it is read then and not before.
    fn steal(
        &mut self,
        helper: u8,
        pair: (u16, u16),
        cells: &mut [Cell<J, O>],
    ) -> Result<Attempt<J, O>, Refusal>
        ensures attempts { (helpers : List Helper) → Attempts M.meaning M.picks helper (aim_at.Swap pair) self.old cells.old result self.new cells.new helpers }
        ensures owner { self.new.owner ≡ self.old.owner }
    {
        let (tail, split) = pair;
        if tail as usize >= cells.len() {
            return Err(Refusal::Misread);
        }
        if !self.memory.swap(tail, split) {
            return Ok(ends(Access::Swap, Answer::Changed));
        }
        let job = cells::take(cells, tail, helper);
        Ok(Attempt {
            aim: Aim::Hold(tail),
            reply: reply(Access::Swap, 0, Answer::Taken(job)),
        })
    }
}

fn goes_on<J, O>(access: Access, aim: Aim) -> Attempt<J, O>
    ensures attempt { result ≡ record { aim = aim; reply = record { access = access; landed = 0; answer = Going } } }
{
    Attempt {
        aim,
        reply: reply(access, 0, Answer::Going),
    }
}

// The attempt is over, and the next step begins another.
fn ends<J, O>(access: Access, answer: Answer<J, O>) -> Attempt<J, O>
    ensures attempt { result ≡ record { aim = aim_at.ReadFlag; reply = record { access = access; landed = 0; answer = answer } } }
{
    Attempt {
        aim: Aim::ReadFlag,
        reply: reply(access, 0, answer),
    }
}
