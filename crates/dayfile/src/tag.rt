// The tags of a day file's records.
ghost use Rattle.std.specs.Prelude.{◌≡◌, Ok};
ghost use Rattle.dayfile.specs.Format.{refuse_if, outside, tag_of};
ghost use Rattle.dayfile.specs.declared.fault.FileRefusal.TheVariants.{UnknownTag};

use crate::fault::FileRefusal;

#[derive(Clone, Copy)]
pub(crate) enum Tag {
    Board,
    Push,
    Pop,
    Retire,
    OwnerStep,
    HelperStep,
    Finish,
    Land,
}

impl TryFrom<u8> for Tag {
    type Error = FileRefusal;

    ghost try_from_gives = { λ byte r. r ≡ refuse_if (outside 1 8 byte) UnknownTag (Ok (tag_of byte)) };

    fn try_from(byte: u8) -> Result<Tag, FileRefusal> {
        match byte {
            1 => Ok(Tag::Board),
            2 => Ok(Tag::Push),
            3 => Ok(Tag::Pop),
            4 => Ok(Tag::Retire),
            5 => Ok(Tag::OwnerStep),
            6 => Ok(Tag::HelperStep),
            7 => Ok(Tag::Finish),
            8 => Ok(Tag::Land),
            _ => Err(FileRefusal::UnknownTag),
        }
    }
}
