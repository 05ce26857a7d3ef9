// The layers that can refuse. Each layer's own fault says which it is by a `layer` and a `number` of its own: the trait for
// the two, with its ghost members and an `impl` for each fault, would be longer than the functions.
#[derive(Clone, Copy, Debug, PartialEq, Eq)]
pub enum Layer {
    // The reader of day files.
    File,
    Board,
    // The writer of printed lines.
    Line,
}
