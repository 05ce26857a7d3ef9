// One day: a file's records are read, run on a board and printed, one after another.
#![tactic(auto)]

mod fault;

pub use fault::{CallFault, DayFault};

mod day;
mod records;

pub use day::run_day;
