// Worked examples of jobs, day files and listings, with values written by hand.
// They stand in a crate of their own, so that the crates they speak of are proved once.
#![tactic(auto)]

#[cfg(test)]
mod files;
#[cfg(test)]
mod jobs_and_lines;
