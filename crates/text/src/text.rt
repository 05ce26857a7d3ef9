// The bytes of a text and how many of them are in use. Its methods stand in `text/pieces.rt`.
ghost use Rattle.std.specs.Prelude.{◌≡◌, ◌≤◌, length};

mod pieces;

const CAPACITY: usize = 80;

#[derive(Clone, Copy)]
pub struct Text {
    // An array with its length beside it, and no ArrayVec: a text is Copy, which an ArrayVec is not.
    bytes: [u8; CAPACITY],
    len: usize,
    ghost room: { length bytes ≡ 80 },
    ghost within: { len ≤ 80 },
}
