// The owner's steps: each makes the next access of the operation that was begun. A step answers a reply, of which a refusal is
// one kind, so a single test returns it without a `Result`.
ghost use Rattle.std.specs.Prelude.{◌≡◌, ◌+◌, ◌/◌};
ghost use Rattle.model.specs.Owning.{owner_step, owner_step_at, working};
ghost use Rattle.model.specs.declared.owner.Phase.TheVariants.{Opening, Sharing, Shrinking, Closing, Retiring};
ghost use Rattle.model.specs.declared.owner.Shrink.TheVariants as shrink_at;
ghost use Rattle.deque.specs.Doing.{OwnerDoes};

use super::Deque;
use crate::replies::{refused, reply};
use memory::{Memory, Write};
use model::{Access, Answer, Ending, Open, Owner, Phase, Refusal, Reply, Share, Shrink};

impl<M: Memory, J: Copy, O: Copy> Deque<M, J, O> {
    // A match on the phase, and no closures: a phase is data, of which the law speaks.
    pub fn step(&mut self) -> Reply<J, O>
        ensures does { OwnerDoes M.meaning M.picks (λ s. owner_step s) self.old result self.new }
    {
        match self.owner.phase {
            Phase::Idle => refused(Access::Step, Refusal::NothingBegun),
            Phase::Opening(at) => self.open(at),
            Phase::Sharing(at, ending) => self.share(at, ending),
            Phase::Shrinking(at, job) => self.shrink(at, job),
            Phase::Closing => self.close(),
            Phase::Retiring(outcome) => self.end_retire(outcome),
        }
    }

    // A push onto a board with nothing to steal: the pair shows the job, and the flag calls the helpers.
    fn open(&mut self, at: Open) -> Reply<J, O>
        ensures does { OwnerDoes M.meaning M.picks (λ s. owner_step_at s (Opening at)) self.old result self.new }
    {
        match at {
            Open::WritePair => {
                let head = self.owner.head;
                self.owner.phase = Phase::Opening(Open::WriteFlag);
                let landed = self.memory.write(Write::Pair {
                    tail: head.saturating_sub(1),
                    split: head,
                });
                reply(Access::WritePair, landed, Answer::Going)
            }
            Open::WriteFlag => {
                self.owner.own_split = self.owner.head;
                self.owner.own_flag = false;
                self.owner.phase = Phase::Opening(Open::ReadRequest);
                let landed = self.memory.write(Write::Flag(false));
                reply(Access::WriteFlag, landed, Answer::Going)
            }
            Open::ReadRequest if self.memory.owner_request() => {
                self.owner.phase = Phase::Sharing(Share::WriteRequest, Ending::Pushed);
                reply(Access::ReadRequest, 0, Answer::Going)
            }
            Open::ReadRequest => {
                self.owner.phase = Phase::Idle;
                reply(Access::ReadRequest, 0, Answer::Pushed)
            }
        }
    }

    // Where a helper has asked for more, half of the private jobs are shared.
    fn share(&mut self, at: Share, ending: Ending<J>) -> Reply<J, O>
        ensures does { OwnerDoes M.meaning M.picks (λ s. owner_step_at s (Sharing at ending)) self.old result self.new }
    {
        match at {
            Share::ReadRequest if self.memory.owner_request() => {
                self.owner.phase = Phase::Sharing(Share::WriteSplit, ending);
                reply(Access::ReadRequest, 0, Answer::Going)
            }
            Share::ReadRequest => {
                self.owner.phase = Phase::Idle;
                reply(Access::ReadRequest, 0, ending.into())
            }
            Share::WriteSplit => {
                let split = middle_up(self.owner.own_split, self.owner.head);
                self.owner.own_split = split;
                self.owner.phase = Phase::Sharing(Share::WriteRequest, ending);
                let landed = self.memory.write(Write::Split(split));
                reply(Access::WriteSplit, landed, Answer::Going)
            }
            Share::WriteRequest => {
                self.owner.phase = Phase::Idle;
                let landed = self.memory.write(Write::Request(false));
                reply(Access::WriteRequest, landed, ending.into())
            }
        }
    }

    fn shrink(&mut self, at: Shrink, job: J) -> Reply<J, O>
        ensures does { OwnerDoes M.meaning M.picks (λ s. owner_step_at s (Shrinking at job)) self.old result self.new }
    {
        match at {
            Shrink::ReadPair => self.read_pair(job),
            Shrink::WriteSplit { tail, split } => {
                let lower = tail.midpoint(split);
                self.owner.own_split = lower;
                self.owner.phase = Phase::Shrinking(Shrink::Fence { tail, split }, job);
                let landed = self.memory.write(Write::Split(lower));
                reply(Access::WriteSplit, landed, Answer::Going)
            }
            Shrink::Fence { tail, split } => {
                self.owner.phase = Phase::Shrinking(Shrink::ReadTail { tail, split }, job);
                let landed = self.memory.fence();
                reply(Access::Fence, landed, Answer::Going)
            }
            Shrink::ReadTail { tail, split } => self.read_tail(tail, split, job),
            Shrink::WriteAgain { tail, split } => {
                let higher = tail.midpoint(split);
                self.owner.own_split = higher;
                to_work(&mut self.owner, job);
                let landed = self.memory.write(Write::Split(higher));
                reply(Access::WriteSplit, landed, Answer::Going)
            }
        }
    }

    // The pair as the owner reads it: what is not stolen of it will be split anew.
    fn read_pair(&mut self, job: J) -> Reply<J, O>
        ensures does { OwnerDoes M.meaning M.picks (λ s. owner_step_at s (Shrinking shrink_at.ReadPair job)) self.old result self.new }
    {
        let (tail, split) = self.memory.owner_pair();
        if tail < self.owner.told || split < tail || split != self.owner.own_split {
            return refused(Access::Step, Refusal::Misread);
        }
        self.owner.phase = if tail == split {
            Phase::Closing
        } else {
            Phase::Shrinking(Shrink::WriteSplit { tail, split }, job)
        };
        reply(Access::ReadPair, 0, Answer::Going)
    }

    // The tail after the fence: no helper can take a job beyond the new split any more.
    fn read_tail(&mut self, tail: u16, split: u16, job: J) -> Reply<J, O>
        ensures does { OwnerDoes M.meaning M.picks (λ s. owner_step_at s (Shrinking (shrink_at.ReadTail tail split) job)) self.old result self.new }
    {
        let now_tail = self.memory.owner_tail();
        if !(tail..=split).contains(&now_tail) {
            return refused(Access::Step, Refusal::Misread);
        }
        if now_tail == split {
            self.owner.phase = Phase::Closing;
        } else if now_tail > tail.midpoint(split) {
            let again = Shrink::WriteAgain {
                tail: now_tail,
                split,
            };
            self.owner.phase = Phase::Shrinking(again, job);
        } else {
            to_work(&mut self.owner, job);
        }
        reply(Access::ReadTail, 0, Answer::Going)
    }

    // All jobs are stolen.
    fn close(&mut self) -> Reply<J, O>
        ensures does { OwnerDoes M.meaning M.picks (λ s. owner_step_at s Closing) self.old result self.new }
    {
        self.owner.own_flag = true;
        self.owner.told = self.owner.head;
        self.owner.phase = Phase::Idle;
        let landed = self.memory.write(Write::Flag(true));
        reply(Access::WriteFlag, landed, Answer::Stolen)
    }

    fn end_retire(&mut self, outcome: O) -> Reply<J, O>
        ensures does { OwnerDoes M.meaning M.picks (λ s. owner_step_at s (Retiring outcome)) self.old result self.new }
    {
        self.owner.phase = Phase::Idle;
        let landed = self.memory.write(Write::Flag(true));
        reply(Access::WriteFlag, landed, Answer::Retired(outcome))
    }
}

// A pop that has its job lowers head and may share more before it answers.
pub(crate) fn to_work<J: Copy, O: Copy>(owner: &mut Owner<J, O>, job: J)
    ensures works { owner.new ≡ working owner.old job }
{
    owner.head = owner.head.saturating_sub(1);
    owner.phase = Phase::Sharing(Share::ReadRequest, Ending::Work(job));
}

// The middle of two numbers, rounded up.
fn middle_up(low: u16, high: u16) -> u16
    ensures middle { result ≡ (low + high + 1) / 2 }
{
    (u32::from(low) + u32::from(high)).div_ceil(2) as u16
}
