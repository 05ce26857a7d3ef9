// The helpers' calls: each changes one record of the table.
ghost use Rattle.std.specs.Prelude.{◌≡◌, ◌-◌, ◌<◌, ◌≤◌, ◌==◌, true, length, take, is_some, if◌then◌else◌};
ghost use Rattle.std.specs.Option.{option_map};
ghost use Rattle.calls.specs.declared.call.Call.TheVariants.{HelperStep, Finish};
ghost use Rattle.model.specs.Places.{at_number, changed};
ghost use Rattle.board.specs.Shown.{Answers};
ghost use Rattle.deque.specs.Doing.{reply_or};

use super::Board;
use deque::{finish, replied, reply};
use jobs::Job;
use memory::Memory;
use model::{Access, Aim, Answer, Cell, Helper, Refusal, Reply};

impl<M: Memory, J: Job> Board<M, J> {
    // One access of a helper's attempt.
    pub fn helper_step(
        &mut self,
        helper: u8,
        cells: &mut [Cell<J, J::Outcome>],
    ) -> Reply<J, J::Outcome>
        ensures answers { Answers M.meaning M.picks (HelperStep helper) self.old cells.old result self.new cells.new }
    {
        replied(Access::Step, self.step_helper(helper, cells))
    }

    // A helper hands in the outcome of the job it holds.
    pub fn finish(
        &mut self,
        helper: u8,
        outcome: J::Outcome,
        cells: &mut [Cell<J, J::Outcome>],
    ) -> Reply<J, J::Outcome>
        ensures answers { Answers M.meaning M.picks (Finish helper outcome) self.old cells.old result self.new cells.new }
    {
        replied(Access::Finish, self.hand_in(helper, outcome, cells))
    }

    fn step_helper(
        &mut self,
        helper: u8,
        cells: &mut [Cell<J, J::Outcome>],
    ) -> Result<Reply<J, J::Outcome>, Refusal>
        ensures answers { Answers M.meaning M.picks (HelperStep helper) self.old cells.old (reply_or Access.Step result) self.new cells.new }
    {
        self.expect_cells(cells)?;
        let aim = self.aim_of(helper).ok_or(Refusal::UnknownHelper)?;
        let attempt = self.deque.attempt(helper, aim, cells)?;
        self.set_aim(helper, attempt.aim);
        Ok(attempt.reply)
    }

    fn hand_in(
        &mut self,
        helper: u8,
        outcome: J::Outcome,
        cells: &mut [Cell<J, J::Outcome>],
    ) -> Result<Reply<J, J::Outcome>, Refusal>
        ensures answers { Answers M.meaning M.picks (Finish helper outcome) self.old cells.old (reply_or Access.Finish result) self.new cells.new }
    {
        self.expect_cells(cells)?;
        let Aim::Hold(position) = self.aim_of(helper).ok_or(Refusal::UnknownHelper)? else {
            return Err(Refusal::HoldsNone);
        };
        finish(cells, position, outcome);
        self.set_aim(helper, Aim::ReadFlag);
        Ok(reply(Access::Finish, 0, Answer::Finished))
    }

    fn expect_cells(&self, cells: &[Cell<J, J::Outcome>]) -> Result<(), Refusal>
        ensures expects { result ≡ (if length cells.now == self.now.deque.owner.size then Ok tt else Err Refusal.WrongCells) }
    {
        if self.fits(cells) {
            Ok(())
        } else {
            Err(Refusal::WrongCells)
        }
    }

    // Where the attempt of a helper stands, if there is such a helper.
    fn aim_of(&self, helper: u8) -> Option<Aim>
        ensures aim { result ≡ option_map (λ h. h.aim) (at_number (take self.now.helpers self.now.table) helper) }
        ensures known { is_some result ≡ true → (0 < helper) × (helper ≤ self.now.helpers) }
    {
        let at = (helper as usize).checked_sub(1)?;
        let helpers = &self.table[..self.helpers as usize];
        helpers.get(at).map(|record| record.aim)
    }

    fn set_aim(&mut self, helper: u8, aim: Aim)
        requires some { 0 < helper }
        requires known { helper ≤ self.old.helpers }
        ensures deque { self.new.deque ≡ self.old.deque }
        ensures table { take self.new.helpers self.new.table ≡ changed (take self.old.helpers self.old.table) (helper - 1) (λ _. record { aim = aim }) }
    {
        self.table[helper as usize - 1] = Helper { aim };
    }
}
