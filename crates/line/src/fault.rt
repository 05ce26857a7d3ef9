// Why a line is not written.
ghost use Rattle.std.specs.Prelude.{◌≡◌};
ghost use Rattle.line.specs.Lines.{number_of, layer_of};

use calls::Layer;

#[derive(Clone, Copy, Debug, PartialEq, Eq)]
pub enum LineFault {
    // The buffer is shorter than 80 bytes.
    ShortBuffer,
}

impl LineFault {
    pub fn number(self) -> u8
        ensures number { result ≡ number_of self }
    {
        match self {
            LineFault::ShortBuffer => 21,
        }
    }

    // As each layer's fault does: `calls::Layer` says why there is no trait.
    pub fn layer(self) -> Layer
        ensures layer { result ≡ layer_of self }
    {
        Layer::Line
    }
}
