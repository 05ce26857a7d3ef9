// What a job board means: its plain types, which the board's code uses too.
#![tactic(auto)]

mod cell;

pub use cell::Cell;

mod owner;

pub use owner::{Ending, Open, Owner, Phase, Share, Shrink};

mod helper;

pub use helper::{Aim, Helper};

mod reply;

pub use reply::{Access, Answer, Refusal, Reply};

mod laws;

pub use laws::{law_of_calls, law_of_runs, worked_edges};
