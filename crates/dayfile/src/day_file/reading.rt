// How a day file is opened, and gives its calls one after another.
ghost use Rattle.std.specs.Prelude.{◌≡◌, ◌+◌, ◌≤◌, true, false, Ok, Err, MatchResult, IfOk, IfErr, OnSome};
ghost use Rattle.dayfile.specs.Format.{record_length, settings_from, next_from, placed};
ghost use Rattle.dayfile.specs.Holding.{Takes};
ghost use Rattle.dayfile.specs.Opened.{left};
ghost use Rattle.dayfile.specs.Reading.{file_of, unread, gave, Moves};

use super::DayFile;
use crate::fault::FileFault;
use crate::reader::Reader;
use crate::settings::Settings;
use calls::Call;
use jobs::Job;

impl<'a> DayFile<'a> {
    // Reads the board's record, or says why the file is refused at its first byte.
    pub fn open(bytes: &'a [u8]) -> Result<DayFile<'a>, FileFault>
        ensures settings { MatchResult result (λ it. settings_from true bytes.now ≡ Ok it.settings) (λ fault. settings_from true bytes.now ≡ Err fault.refusal) }
        ensures file { IfOk result (λ it. file_of it.reader ≡ bytes.now) }
        ensures past { IfOk result (λ it. it.reader.position ≡ record_length bytes.now) }
        ensures place { IfErr result (λ fault. fault.place ≡ 0) }
    {
        let mut reader = Reader::new(bytes);
        let settings = reader.board()?;
        Ok(DayFile { reader, settings })
    }

    pub fn settings(&self) -> Settings
        ensures settings { result ≡ self.now.settings }
    {
        self.settings
    }

    // The next call, or the file's end.
    pub fn next<J: Job>(&mut self) -> Result<Option<Call<J, J::Outcome>>, FileFault>
        ensures answer { result ≡ placed self.old.reader.position (next_from J.form J.outcome false (unread self.old.reader)) }
        ensures moves { Moves self.old.reader (gave result) self.new.reader }
        ensures settings { self.new.settings ≡ self.old.settings }
        ensures takes { Takes (left J.form J.outcome self.old) result (left J.form J.outcome self.new) }
        // A caller that counts the calls has a loop that ends, and a count that a `u16` has room for.
        ensures passes { IfOk result (λ given. OnSome given (self.old.reader.position + 3 ≤ self.new.reader.position)) }
        ensures few { self.new.reader.position ≤ 61440 }
    {
        self.reader.next()
    }
}
