// Why a day file is refused, and at which byte. The number, layer and place of a refusal are read from it here.
ghost use Rattle.std.specs.Prelude.{◌≡◌, ◌≤◌, length, Some};
ghost use Rattle.dayfile.specs.Faults.{number_of, layer_of, refusal_of, refusal_line};
ghost use Rattle.text.specs.Content.{content};

use calls::Layer;
use jobs::JobFault;
use std::fmt;
use text::Text;

// The ways in which a record is refused, in checking order.
#[derive(Clone, Copy, Debug, PartialEq, Eq)]
pub enum FileRefusal {
    // The file is longer than 61,440 bytes.
    TooLong,
    // The file is empty, or a record ends before its three leading bytes or its value do.
    CutShort,
    // The tag is not 1 to 8.
    UnknownTag,
    // The first record is not the board's, or a later one is.
    OutOfOrder,
    // The length is not the tag's.
    WrongLength,
    // The board's size is not 1 to 1,024.
    WrongSize,
    // The helpers are not 1 to 16.
    WrongHelpers,
    // The memory kind or the job kind is neither 0 nor 1.
    UnknownKind,
    // A card job's action is not 1 to 3.
    UnknownAction,
}

impl FileRefusal {
    pub fn number(self) -> u8
        ensures number { result ≡ number_of self }
    {
        match self {
            FileRefusal::TooLong => 1,
            FileRefusal::CutShort => 2,
            FileRefusal::UnknownTag => 3,
            FileRefusal::OutOfOrder => 4,
            FileRefusal::WrongLength => 5,
            FileRefusal::WrongSize => 6,
            FileRefusal::WrongHelpers => 7,
            FileRefusal::UnknownKind => 8,
            FileRefusal::UnknownAction => 9,
        }
    }
}

// What a job's bytes get wrong, their file gets wrong: case by case, which no derive can say.
impl From<JobFault> for FileRefusal {
    ghost from_gives = { λ fault r. r ≡ refusal_of fault };

    fn from(fault: JobFault) -> FileRefusal {
        match fault {
            JobFault::WrongWidth => FileRefusal::WrongLength,
            JobFault::UnknownAction => FileRefusal::UnknownAction,
        }
    }
}

#[derive(Clone, Copy, Debug, PartialEq, Eq)]
pub struct FileFault {
    pub refusal: FileRefusal,
    // The byte at which the refused record begins.
    pub place: usize,
}

impl FileFault {
    pub fn number(self) -> u8
        ensures number { result ≡ number_of self.refusal }
    {
        self.refusal.number()
    }

    // As each layer's fault does: `calls::Layer` says why there is no trait.
    pub fn layer(self) -> Layer
        ensures layer { result ≡ layer_of self }
    {
        Layer::File
    }

    // As `refused 4 at 8`. It stays beside `Display`, since it neither fails nor allocates.
    pub fn text(self) -> Text
        ensures text { content result ≡ refusal_line self }
        ensures short { length (refusal_line self) ≤ 60 }
    {
        let mut out = Text::new();
        out.push_str("refused ");
        out.push_number(self.number());
        out.push_str(" at ");
        out.push_number(self.place);
        out
    }
}

// The same text, for what formats.
impl fmt::Display for FileFault {
    ghost output = { λ fault. Some (refusal_line fault) };

    fn fmt<W: fmt::Write>(&self, f: &mut fmt::Formatter<W>) -> fmt::Result {
        write!(f, "refused {} at {}", self.number(), self.place)
    }
}
