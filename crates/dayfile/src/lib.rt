// Day files: a reader that gives one record per call, or what is wrong with the file and where.
// It borrows the bytes, allocates nothing and asks nothing of them beforehand.
#![tactic(auto)]

mod reader;
mod tag;

pub use reader::{MOST_BYTES, MOST_READ, Reader};

mod settings;

pub use settings::{JobKind, MemoryKind, Settings};

mod fault;

pub use fault::{FileFault, FileRefusal};

mod day_file;

pub use day_file::DayFile;
