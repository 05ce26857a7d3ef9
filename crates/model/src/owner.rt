// What the owner of a board keeps to itself: its numbers, and which access its operation makes next.
#[derive(Clone, Copy)]
pub struct Owner<J, O> {
    // How many positions the board has.
    pub size: u16,
    // Jobs stand at the positions below head.
    pub head: u16,
    // The owner's copy of split.
    pub own_split: u16,
    // The owner's copy of flag: all jobs are stolen.
    pub own_flag: bool,
    // How many positions a pop has reported stolen.
    pub told: u16,
    pub phase: Phase<J, O>,
}

// Where the owner's operation stands, by the access that comes next.
#[derive(Clone, Copy)]
pub enum Phase<J, O> {
    // No operation is unfinished.
    Idle,
    // A push onto a board with nothing to steal.
    Opening(Open),
    // A push or a pop that may share more jobs before it ends.
    Sharing(Share, Ending<J>),
    // A pop that takes jobs back from the shared part, with the job it will answer.
    Shrinking(Shrink, J),
    // A pop that finds all jobs stolen.
    Closing,
    // A retire, with the outcome that it answers.
    Retiring(O),
}

#[derive(Clone, Copy)]
pub enum Open {
    WritePair,
    WriteFlag,
    ReadRequest,
}

#[derive(Clone, Copy)]
pub enum Share {
    ReadRequest,
    WriteSplit,
    WriteRequest,
}

// The pair stands taken apart in each, as tail and split: a rule of the project, by which only a memory's read has a pair.
#[derive(Clone, Copy)]
pub enum Shrink {
    ReadPair,
    // The pair that was read.
    WriteSplit { tail: u16, split: u16 },
    Fence { tail: u16, split: u16 },
    ReadTail { tail: u16, split: u16 },
    // The tail that was read again, and the split before.
    WriteAgain { tail: u16, split: u16 },
}

// How a push or a pop ends once its shares are made.
#[derive(Clone, Copy)]
pub enum Ending<J> {
    Pushed,
    Work(J),
}
