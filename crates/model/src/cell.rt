// One position of a board: a job, who took it, and what came of it.
ghost use Rattle.std.specs.Prelude.{◌≡◌};
ghost use Rattle.model.specs.Places.{new_cell};

#[derive(Clone, Copy)]
pub struct Cell<J, O> {
    pub job: J,
    // The helper that took the job, by its number from 1.
    pub taker: Option<u8>,
    // What came of the job, once its taker has finished it.
    pub outcome: Option<O>,
}

impl<J, O> Cell<J, O> {
    // A job just pushed.
    pub const fn new(job: J) -> Cell<J, O>
        ensures new { result ≡ new_cell job }
    {
        Cell {
            job,
            taker: None,
            outcome: None,
        }
    }
}
