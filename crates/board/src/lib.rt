// The job board: a split deque over any memory and for every kind of job, one access to the shared words a call.
// Each call answers as the model defines, and `call` carries the law of every run.
#![tactic(auto)]

mod board;

pub use board::Board;
