// The shared words of a split work-stealing deque, under an owner whose writes may wait before they land.
// This is the crate's front: it names what a user needs, in the order of meeting it, and has no code of its own.
#![tactic(auto)]

mod words;

pub use words::{Words, Write};

mod memory;

pub use memory::Memory;

mod direct;

pub use direct::Direct;

mod queued;

pub use queued::Queued;

#[cfg(test)]
mod tests;
