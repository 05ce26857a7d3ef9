// What a file's first record says of its board.
ghost use Rattle.std.specs.Prelude.{◌≡◌, ◌≤◌, length, Ok, Some};
ghost use Rattle.dayfile.specs.Format.{refuse_if, outside, memory_kind, job_kind};
ghost use Rattle.dayfile.specs.Words.{memory_word, job_word};
ghost use Rattle.dayfile.specs.declared.fault.FileRefusal.TheVariants.{UnknownKind};

use crate::fault::FileRefusal;
use std::fmt;

// Which memory stands behind the board's words.
#[derive(Clone, Copy, Debug, PartialEq, Eq)]
pub enum MemoryKind {
    // Each write lands at once.
    Direct,
    // Writes wait in a store queue.
    Queued,
}

impl TryFrom<u8> for MemoryKind {
    type Error = FileRefusal;

    ghost try_from_gives = { λ byte r. r ≡ refuse_if (outside 0 1 byte) UnknownKind (Ok (memory_kind byte)) };

    fn try_from(byte: u8) -> Result<MemoryKind, FileRefusal> {
        match byte {
            0 => Ok(MemoryKind::Direct),
            1 => Ok(MemoryKind::Queued),
            _ => Err(FileRefusal::UnknownKind),
        }
    }
}

impl MemoryKind {
    // The word that it is printed by, for what neither fails nor allocates.
    pub fn word(self) -> &'static str
        ensures word { result.now ≡ memory_word self }
        ensures short { length (memory_word self) ≤ 6 }
    {
        match self {
            MemoryKind::Direct => "direct",
            MemoryKind::Queued => "queued",
        }
    }
}

impl fmt::Display for MemoryKind {
    ghost output = { λ kind. Some (memory_word kind) };

    fn fmt<W: fmt::Write>(&self, f: &mut fmt::Formatter<W>) -> fmt::Result {
        f.write_str(self.word())
    }
}

#[derive(Clone, Copy, Debug, PartialEq, Eq)]
pub enum JobKind {
    Cards,
    Labels,
}

impl TryFrom<u8> for JobKind {
    type Error = FileRefusal;

    ghost try_from_gives = { λ byte r. r ≡ refuse_if (outside 0 1 byte) UnknownKind (Ok (job_kind byte)) };

    fn try_from(byte: u8) -> Result<JobKind, FileRefusal> {
        match byte {
            0 => Ok(JobKind::Cards),
            1 => Ok(JobKind::Labels),
            _ => Err(FileRefusal::UnknownKind),
        }
    }
}

impl JobKind {
    // The word that it is printed by, as a memory's kind.
    pub fn word(self) -> &'static str
        ensures word { result.now ≡ job_word self }
        ensures short { length (job_word self) ≤ 6 }
    {
        match self {
            JobKind::Cards => "cards",
            JobKind::Labels => "labels",
        }
    }
}

impl fmt::Display for JobKind {
    ghost output = { λ kind. Some (job_word kind) };

    fn fmt<W: fmt::Write>(&self, f: &mut fmt::Formatter<W>) -> fmt::Result {
        f.write_str(self.word())
    }
}

#[derive(Clone, Copy, Debug, PartialEq, Eq)]
pub struct Settings {
    // How many jobs the board has room for.
    pub size: u16,
    pub helpers: u8,
    pub memory: MemoryKind,
    pub jobs: JobKind,
}
