// What the tills ask of a board: the calls, who makes each, and the layers that can refuse one.
// It says nothing of what a call does; that is the board's.
#![tactic(auto)]

mod call;

pub use call::Call;

mod party;

pub use party::Party;

mod layer;

pub use layer::Layer;

mod limits;

pub use limits::{MOST_CELLS, MOST_HELPERS};
