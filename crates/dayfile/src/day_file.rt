// A day file whose board's record has been read: the rest of it is read call by call.
// The type stands here alone, since a type with an invariant imports all that its file does: the module below has its code.
ghost use Rattle.std.specs.Prelude.{◌<◌, ◌≤◌, length};
ghost use Rattle.dayfile.specs.Reading.{file_of};

use crate::reader::Reader;
use crate::settings::Settings;

mod reading;

#[derive(Drop)]
pub struct DayFile<'a> {
    reader: Reader<'a>,
    settings: Settings,
    pub ghost short: { length (file_of reader) ≤ 61440 },
    pub ghost started: { 0 < reader.position },
    pub ghost within: { reader.position ≤ length (file_of reader) },
    pub ghost some_cells: { 1 ≤ settings.size },
    pub ghost few_cells: { settings.size ≤ 1024 },
    pub ghost some_helpers: { 1 ≤ settings.helpers },
    pub ghost few_helpers: { settings.helpers ≤ 16 },
}
