// The text of one printed line: up to 80 bytes, gathered piece by piece, with no allocation.
// It never refuses and never fails: what does not fit is left off.
// Jobs and outcomes print themselves into a `Text`, and so does every line of a call: by `push_str`, and not by `Display` and
// `write!`, since `write!` answers a `Result`, and a clause knows only what it writes where that is `Ok`.
#![tactic(auto)]

mod text;

pub use text::Text;
