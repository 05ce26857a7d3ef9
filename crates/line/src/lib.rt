// The printed line of one call, written into the caller's buffer.
#![tactic(auto)]

mod fault;

pub use fault::LineFault;

mod line;

pub use line::write_line;

#[cfg(test)]
mod tests;
