// The split deque itself: the shared words and what the owner keeps. The modules below have its code.
ghost use Rattle.std.specs.Prelude.{◌≤◌};

use model::{Aim, Owner, Reply};

mod attempts;
mod begins;
mod making;
mod steps;

#[derive(Drop)]
pub struct Deque<M, J, O> {
    pub memory: M,
    pub owner: Owner<J, O>,
    ghost head_size: { owner.head ≤ owner.size },
}

// What a helper's step comes to: where its attempt stands then, and the reply.
#[derive(Drop)]
pub struct Attempt<J, O> {
    pub aim: Aim,
    pub reply: Reply<J, O>,
}
