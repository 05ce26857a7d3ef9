// Any call, by what it asks. This is the call that a day makes for every record, and it carries the law of every run.
ghost use Rattle.std.specs.Prelude.{◌≡◌, ◌==◌, length};
ghost use Rattle.board.specs.Lawful.{KeepsTheLaw};
ghost use Rattle.board.specs.Shown.{shown, Answers};

use super::Board;
use calls::Call;
use jobs::Job;
use memory::Memory;
use model::{Cell, Reply};

impl<M: Memory, J: Job> Board<M, J> {
    pub fn call(
        &mut self,
        call: Call<J, J::Outcome>,
        cells: &mut [Cell<J, J::Outcome>],
    ) -> Reply<J, J::Outcome>
        ensures answers { Answers M.meaning M.picks call self.old cells.old result self.new cells.new }
        ensures law { KeepsTheLaw (shown M.meaning self.old) call cells.old result (shown M.meaning self.new) cells.new }
    {
        self.answer(call, cells)
    }

    // Apart from `call`, so that the law is shown once and not for each arm. A call is data, which a file holds.
    fn answer(
        &mut self,
        call: Call<J, J::Outcome>,
        cells: &mut [Cell<J, J::Outcome>],
    ) -> Reply<J, J::Outcome>
        ensures answers { Answers M.meaning M.picks call self.old cells.old result self.new cells.new }
    {
        match call {
            Call::Push { job } => self.push(job, cells),
            Call::Pop => self.pop(cells),
            Call::Retire => self.retire(cells),
            Call::OwnerStep => self.owner_step(cells),
            Call::HelperStep { helper } => self.helper_step(helper, cells),
            Call::Finish { helper, outcome } => self.finish(helper, outcome, cells),
            Call::Land => self.land(),
        }
    }

    // Every call but land has to be handed as many cells as the board has positions.
    pub(super) fn fits(&self, cells: &[Cell<J, J::Outcome>]) -> bool
        ensures fits { result ≡ (length cells.now == self.now.deque.owner.size) }
    {
        cells.len() == self.deque.owner.size as usize
    }
}
