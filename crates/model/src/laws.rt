// The laws of the model, each as the contract of a function that does nothing: with no proof of the law there is no such function.
ghost use Rattle.model.specs.Edges.{Edges};
ghost use Rattle.model.specs.Keeping.{NumbersKeep, CallsHaveOneReply};
ghost use Rattle.model.specs.Law.{Law};

use crate::cell::Cell;

// What holds of every run of a board.
pub fn law_of_runs<J, O>()
    ensures law { Law J O }
{}

// What holds of one call: it has one reply and one state after it, and keeps the owner's numbers in range.
pub fn law_of_calls<J, O>()
    ensures one_reply { CallsHaveOneReply J O }
    ensures in_range { NumbersKeep J O }
{}

// Boards at their edges, worked out for these jobs and this outcome, whatever the cells held.
pub fn worked_edges<J: Copy, O: Copy>(job: J, other: J, outcome: O, cell: Cell<J, O>)
    ensures edges { Edges job other outcome cell }
{}
