// The reader of a day file. Each call reads the record at the reader's position and moves past it; a refusal leaves
// the position where it was.
ghost use Rattle.std.specs.Prelude.{◌≡◌, ◌+◌, ◌^◌, ◌<◌, length, is_ok, IfOk, Some, None, MatchResult};
ghost use Rattle.dayfile.specs.Format.{frame_fault, tag_of, tag_byte, value_bytes};
ghost use Rattle.dayfile.specs.Format.{settings_of, settings_from, call_of, call_from, next_from, placed};
ghost use Rattle.dayfile.specs.Encoding.{DaysReadBack};
ghost use Rattle.dayfile.specs.Reading.{file_of, at_start, unread, gave, Moves, EndsAt, said};

use crate::fault::{FileFault, FileRefusal};
use crate::settings::{JobKind, MemoryKind, Settings};
use crate::tag::Tag;
use calls::{Call, MOST_CELLS, MOST_HELPERS};
use jobs::Job;

// The most bytes that a day file may have.
pub const MOST_BYTES: usize = 61_440;

// What a program reads of one, so that a longer one is seen to be too long.
pub const MOST_READ: u64 = MOST_BYTES as u64 + 1;

#[derive(Drop)]
pub struct Reader<'a> {
    bytes: &'a [u8],
    position: usize,
}

// A record before its value is understood.
#[derive(Drop)]
struct Raw<'a> {
    tag: Tag,
    value: &'a [u8],
    // The place after it.
    end: usize,
}

// What a record says, and the place after it.
struct Found<T> {
    what: T,
    end: usize,
}

impl<'a> Reader<'a> {
    pub fn new(bytes: &'a [u8]) -> Reader<'a>
        ensures file { file_of result ≡ bytes.now }
        ensures start { result.position ≡ 0 }
    {
        Reader { bytes, position: 0 }
    }

    // Reads the board's record, which stands first.
    pub fn board(&mut self) -> Result<Settings, FileFault>
        ensures answer { result ≡ placed self.old.position (settings_from (at_start self.old) (unread self.old)) }
        ensures moves { Moves self.old (is_ok result) self.new }
    {
        let found = self.settings();
        self.pass(found)
    }

    // Reads a later record, which asks something of the board, or finds the file's end.
    pub fn next<J: Job>(&mut self) -> Result<Option<Call<J, J::Outcome>>, FileFault>
        ensures answer { result ≡ placed self.old.position (next_from J.form J.outcome (at_start self.old) (unread self.old)) }
        ensures moves { Moves self.old (gave result) self.new }
        ensures reads_back { DaysReadBack J.form J.outcome }
    {
        if self.position > 0 && self.rest().is_empty() {
            return Ok(None);
        }
        let found = self.call();
        self.pass(found).map(Some)
    }

    // Moves past a record that was understood, or says where it is refused.
    fn pass<T>(&mut self, found: Result<Found<T>, FileRefusal>) -> Result<T, FileFault>
        requires { IfOk found (λ it. EndsAt self.old it.end) }
        ensures answer { result ≡ placed self.old.position (said found) }
        ensures moves { Moves self.old (is_ok result) self.new }
    {
        let Found { what, end } = found.map_err(|refusal| FileFault {
            refusal,
            place: self.position,
        })?;
        self.position = end;
        Ok(what)
    }

    fn settings(&self) -> Result<Found<Settings>, FileRefusal>
        ensures says { said result ≡ settings_from (at_start self.now) (unread self.now) }
        ensures ends { IfOk result (λ it. EndsAt self.now it.end) }
    {
        let raw = self.frame()?;
        let Tag::Board = raw.tag else {
            return Err(FileRefusal::OutOfOrder);
        };
        let what = settings_of(raw.value)?;
        Ok(Found { what, end: raw.end })
    }

    fn call<J: Job>(&self) -> Result<Found<Call<J, J::Outcome>>, FileRefusal>
        ensures says { said result ≡ call_from J.form J.outcome (at_start self.now) (unread self.now) }
        ensures ends { IfOk result (λ it. EndsAt self.now it.end) }
    {
        let raw = self.frame()?;
        let what = call_of(raw.tag, raw.value)?;
        Ok(Found { what, end: raw.end })
    }

    // The record at the position, cut out by its length.
    fn frame(&self) -> Result<Raw<'a>, FileRefusal>
        ensures sound { MatchResult result (λ _. frame_fault (at_start self.now) (unread self.now) ≡ None) (λ refusal. frame_fault (at_start self.now) (unread self.now) ≡ Some refusal) }
        ensures tag { IfOk result (λ raw. raw.tag ≡ tag_of (tag_byte (unread self.now))) }
        ensures value { IfOk result (λ raw. raw.value.now ≡ value_bytes (unread self.now)) }
        ensures ends { IfOk result (λ raw. EndsAt self.now raw.end) }
    {
        let first = self.position == 0;
        let rest = self.rest();
        if first && rest.len() > MOST_BYTES {
            return Err(FileRefusal::TooLong);
        }
        let [tag, high, low, ..] = rest else {
            return Err(FileRefusal::CutShort);
        };
        let length = 3 + u16::from_be_bytes([*high, *low]) as usize;
        if rest.len() < length {
            return Err(FileRefusal::CutShort);
        }
        let raw = Raw {
            tag: Tag::try_from(*tag)?,
            value: &rest[3..length],
            end: self.position + length,
        };
        match raw.tag {
            Tag::Board if !first => Err(FileRefusal::OutOfOrder),
            Tag::Board => Ok(raw),
            _ if first => Err(FileRefusal::OutOfOrder),
            _ => Ok(raw),
        }
    }

    // The file's bytes from the position on.
    fn rest(&self) -> &'a [u8]
        ensures rest { result.now ≡ unread self.now }
        ensures fits { self.now.position + length result.now < 2 ^ 64 }
    {
        self.bytes.get(self.position..).unwrap_or(&[])
    }
}

fn settings_of(value: &[u8]) -> Result<Settings, FileRefusal>
    ensures settings { result ≡ settings_of value.now }
{
    let [high, low, helpers, memory, jobs] = value else {
        return Err(FileRefusal::WrongLength);
    };
    match (u16::from_be_bytes([*high, *low]), *helpers) {
        (size, _) if size < 1 || size > MOST_CELLS => Err(FileRefusal::WrongSize),
        (_, helpers) if helpers < 1 || helpers > MOST_HELPERS => Err(FileRefusal::WrongHelpers),
        (size, helpers) => Ok(Settings {
            size,
            helpers,
            memory: MemoryKind::try_from(*memory)?,
            jobs: JobKind::try_from(*jobs)?,
        }),
    }
}

fn call_of<J: Job>(tag: Tag, value: &[u8]) -> Result<Call<J, J::Outcome>, FileRefusal>
    ensures call { result ≡ call_of J.form J.outcome tag value.now }
{
    match (tag, value) {
        (Tag::Board, _) => Err(FileRefusal::OutOfOrder),
        (Tag::Push, job) if job.len() == J::width() => Ok(Call::Push {
            job: J::decode(job)?,
        }),
        (Tag::Pop, []) => Ok(Call::Pop),
        (Tag::Retire, []) => Ok(Call::Retire),
        (Tag::OwnerStep, []) => Ok(Call::OwnerStep),
        (Tag::HelperStep, [helper]) => Ok(Call::HelperStep { helper: *helper }),
        (Tag::Finish, [helper, outcome @ ..]) if outcome.len() == J::outcome_width() => Ok(
            Call::Finish {
                helper: *helper,
                outcome: J::decode_outcome(outcome)?,
            },
        ),
        (Tag::Land, []) => Ok(Call::Land),
        _ => Err(FileRefusal::WrongLength),
    }
}
