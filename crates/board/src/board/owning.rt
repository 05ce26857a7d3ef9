// The owner's calls. A call answers a reply, of which a refusal is one kind, so a single test returns it without a `Result`.
ghost use Rattle.std.specs.Prelude.{◌≡◌, List};
ghost use Rattle.calls.specs.declared.call.Call.TheVariants.{Push, Pop, Retire, OwnerStep, Land};
ghost use Rattle.model.specs.declared.cell.Cell.{Cell};
ghost use Rattle.board.specs.Shown.{Answers};

use super::Board;
use deque::{refused, reply};
use jobs::Job;
use memory::Memory;
use model::{Access, Answer, Cell, Refusal, Reply};

impl<M: Memory, J: Job> Board<M, J> {
    pub fn push(&mut self, job: J, cells: &mut [Cell<J, J::Outcome>]) -> Reply<J, J::Outcome>
        ensures answers { Answers M.meaning M.picks (Push job) self.old cells.old result self.new cells.new }
    {
        if !self.fits(cells) {
            return refused(Access::Push, Refusal::WrongCells);
        }
        self.deque.push(job, cells)
    }

    pub fn pop(&mut self, cells: &[Cell<J, J::Outcome>]) -> Reply<J, J::Outcome>
        ensures answers { Answers M.meaning M.picks Pop self.old cells.now result self.new cells.now }
    {
        if !self.fits(cells) {
            return refused(Access::Pop, Refusal::WrongCells);
        }
        self.deque.pop(cells)
    }

    pub fn retire(&mut self, cells: &[Cell<J, J::Outcome>]) -> Reply<J, J::Outcome>
        ensures answers { Answers M.meaning M.picks Retire self.old cells.now result self.new cells.now }
    {
        if !self.fits(cells) {
            return refused(Access::Retire, Refusal::WrongCells);
        }
        self.deque.retire(cells)
    }

    pub fn owner_step(&mut self, cells: &[Cell<J, J::Outcome>]) -> Reply<J, J::Outcome>
        ensures answers { Answers M.meaning M.picks OwnerStep self.old cells.now result self.new cells.now }
    {
        if !self.fits(cells) {
            return refused(Access::Step, Refusal::WrongCells);
        }
        self.deque.step()
    }

    // Time passes: waiting writes land.
    pub fn land(&mut self) -> Reply<J, J::Outcome>
        ensures answers { (cells : List (Cell J J.Outcome)) → Answers M.meaning M.picks Land self.old cells result self.new cells }
    {
        let landed = self.deque.memory.land();
        reply(Access::Land, landed, Answer::Going)
    }
}
