// How the owner begins an operation: it checks, does the private work and touches no word.
ghost use Rattle.std.specs.Prelude.{◌≡◌, if◌then◌else◌};
ghost use Rattle.model.specs.Owning.{idle, push, pop, retire};
ghost use Rattle.deque.specs.Doing.{Begins, begun_reply};

use super::Deque;
use crate::cells;
use crate::deque::steps::to_work;
use crate::replies::begun;
use memory::Memory;
use model::{Access, Answer, Cell, Ending, Open, Phase, Refusal, Reply, Share, Shrink};

// Nothing begins while an operation is unfinished.
fn expect_idle<J, O>(phase: &Phase<J, O>) -> Result<(), Refusal>
    ensures idle { result ≡ (if idle phase.now then Ok tt else Err Refusal.Busy) }
{
    match phase {
        Phase::Idle => Ok(()),
        _ => Err(Refusal::Busy),
    }
}

impl<M: Memory, J: Copy, O: Copy> Deque<M, J, O> {
    pub fn push(&mut self, job: J, cells: &mut [Cell<J, O>]) -> Reply<J, O>
        ensures begins { Begins M.meaning M.picks (λ s. push s job) self.old cells.old result self.new cells.new }
    {
        begun(Access::Push, self.begin_push(job, cells))
    }

    pub fn pop(&mut self, cells: &[Cell<J, O>]) -> Reply<J, O>
        ensures begins { Begins M.meaning M.picks (λ s. pop s) self.old cells.now result self.new cells.now }
    {
        begun(Access::Pop, self.begin_pop(cells))
    }

    pub fn retire(&mut self, cells: &[Cell<J, O>]) -> Reply<J, O>
        ensures begins { Begins M.meaning M.picks (λ s. retire s) self.old cells.now result self.new cells.now }
    {
        begun(Access::Retire, self.begin_retire(cells))
    }

    fn begin_push(&mut self, job: J, cells: &mut [Cell<J, O>]) -> Result<Answer<J, O>, Refusal>
        ensures begins { Begins M.meaning M.picks (λ s. push s job) self.old cells.old (begun_reply Access.Push result) self.new cells.new }
    {
        expect_idle(&self.owner.phase)?;
        if self.owner.head == self.owner.size {
            return Err(Refusal::Full);
        }
        cells::push(cells, self.owner.head, job);
        self.owner.head += 1;
        self.owner.phase = if self.owner.own_flag {
            Phase::Opening(Open::WritePair)
        } else {
            Phase::Sharing(Share::ReadRequest, Ending::Pushed)
        };
        Ok(Answer::Going)
    }

    fn begin_pop(&mut self, cells: &[Cell<J, O>]) -> Result<Answer<J, O>, Refusal>
        ensures begins { Begins M.meaning M.picks (λ s. pop s) self.old cells.now (begun_reply Access.Pop result) self.new cells.now }
    {
        expect_idle(&self.owner.phase)?;
        let cell = cells::top(cells, self.owner.head).ok_or(Refusal::Empty)?;
        if self.owner.own_flag {
            self.owner.told = self.owner.head;
            return Ok(Answer::Stolen);
        }
        if self.owner.own_split < self.owner.head {
            to_work(&mut self.owner, cell.job);
        } else {
            self.owner.phase = Phase::Shrinking(Shrink::ReadPair, cell.job);
        }
        Ok(Answer::Going)
    }

    fn begin_retire(&mut self, cells: &[Cell<J, O>]) -> Result<Answer<J, O>, Refusal>
        ensures begins { Begins M.meaning M.picks (λ s. retire s) self.old cells.now (begun_reply Access.Retire result) self.new cells.now }
    {
        expect_idle(&self.owner.phase)?;
        let outcome = cells::retire(cells, self.owner.head, self.owner.told)?;
        self.owner.head = self.owner.head.saturating_sub(1);
        self.owner.told = self.owner.told.min(self.owner.head);
        if self.owner.own_flag {
            return Ok(Answer::Retired(outcome));
        }
        self.owner.own_flag = true;
        self.owner.phase = Phase::Retiring(outcome);
        Ok(Answer::Going)
    }
}
