// The split deque: the shared words and what its owner keeps, and what each call does to them and to the cells.
// It knows no table of helpers and no number of cells; the board above it has both.
#![tactic(auto)]

mod cells;

pub use cells::finish;

mod deque;

pub use deque::{Attempt, Deque};

mod replies;

pub use replies::{refused, replied, reply};
