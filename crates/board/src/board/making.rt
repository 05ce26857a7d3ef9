// How a board comes to be: it is handed its memory, and made, once or again, before anything is asked of it.
ghost use Rattle.std.specs.Prelude.{◌≡◌, true, List, length, is_ok};
ghost use Rattle.model.specs.Calls.{making};
ghost use Rattle.model.specs.Histories.{New};
ghost use Rattle.model.specs.declared.cell.Cell.{Cell};
ghost use Rattle.board.specs.Making.{unmade, made_answer, made_board};
ghost use Rattle.board.specs.Shown.{shown};

use super::{Board, TABLE};
use calls::{MOST_CELLS, MOST_HELPERS};
use deque::Deque;
use jobs::Job;
use memory::Memory;
use model::{Aim, Helper, Refusal};

impl<M: Memory, J: Job> Board<M, J> {
    // A board that is not made yet: every call is refused, but for land.
    pub fn unmade(memory: M) -> Board<M, J>
        ensures unmade { (cells : List (Cell J J.Outcome)) → shown M.meaning result cells ≡ unmade (M.meaning memory) cells }
    {
        Board {
            deque: Deque::new(memory),
            helpers: 0,
            table: [Helper { aim: Aim::ReadFlag }; TABLE],
        }
    }

    pub fn make(&mut self, size: u16, helpers: u8) -> Result<(), Refusal>
        ensures answer { (cells : List (Cell J J.Outcome)) → result ≡ made_answer (making size helpers cells) }
        ensures board { (cells : List (Cell J J.Outcome)) → shown M.meaning self.new cells ≡ made_board (making size helpers cells) (shown M.meaning self.old cells) }
        ensures new { is_ok result ≡ true → (cells : List (Cell J J.Outcome)) → length cells ≡ size → New (shown M.meaning self.new cells) }
    {
        if !(1..=MOST_CELLS).contains(&size) {
            return Err(Refusal::WrongSize);
        }
        if !(1..=MOST_HELPERS).contains(&helpers) {
            return Err(Refusal::WrongHelpers);
        }
        self.deque.clear(size);
        self.helpers = helpers;
        self.table = [Helper { aim: Aim::ReadFlag }; TABLE];
        Ok(())
    }
}
