// What a board keeps of each helper.
#[derive(Clone, Copy)]
pub struct Helper {
    pub aim: Aim,
}

// Where a helper's attempt stands, by the access that comes next.
#[derive(Clone, Copy)]
pub enum Aim {
    ReadFlag,
    ReadPair,
    // The pair that was read, tail and split.
    Swap((u16, u16)),
    ReadRequest,
    WriteRequest,
    // The helper holds the job at this position.
    Hold(u16),
}
