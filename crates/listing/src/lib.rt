// The listing of a day file: what its board is, what each record asks, and the counts, or where the file is refused.
// No call of a board is made here.
#![tactic(auto)]

mod counts;
mod day;
mod lines;

pub use day::list_day;
