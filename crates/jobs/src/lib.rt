// The kinds of job that a board carries: how each is read from bytes and how it is printed.
// It knows nothing of boards or of files; a new kind of job is a new `impl Job` here.
#![tactic(auto)]

mod fault;
mod words;

pub use fault::JobFault;

mod job;

pub use job::Job;

mod card;

pub use card::CardJob;

mod label;

pub use label::LabelJob;
