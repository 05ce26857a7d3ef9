// How large a board may be.

pub const MOST_CELLS: u16 = 1_024;

pub const MOST_HELPERS: u8 = 16;
