// The board: a split deque with its table of helpers, and what every board keeps.
// The type stands here alone, since a type with an invariant imports all that its file does: the modules below have its code.
ghost use Rattle.std.specs.Prelude.{◌≡◌, ◌≤◌, length};
ghost use Rattle.model.specs.Keeping.{Sound};

use calls::MOST_HELPERS;
use deque::Deque;
use jobs::Job;
use memory::Memory;
use model::Helper;

mod calling;
mod helping;
mod making;
mod owning;

const TABLE: usize = MOST_HELPERS as usize;

#[derive(Drop)]
pub struct Board<M: Memory, J: Job> {
    deque: Deque<M, J, J::Outcome>,
    // How many helpers there are: the first records of the table are theirs.
    helpers: u8,
    // An array of plain records beside their number, of which a helper's call changes one in its place: a rule of the project.
    table: [Helper; TABLE],
    ghost records: { length table ≡ 16 },
    ghost few_helpers: { helpers ≤ 16 },
    // told ≤ head ≤ size, and told ≤ own split ≤ head while own flag is 0; and the unfinished operation has made sure of what it
    // goes on with.
    ghost sound: { ∥ Sound deque.owner ∥₁ },
}
