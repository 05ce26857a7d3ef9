// A whole day, from the bytes of its file to the lines that it prints.
ghost use Rattle.std.specs.Prelude.{◌≡◌, replicate, MatchResult};
ghost use Rattle.dayfile.specs.Opened.{left};
ghost use Rattle.model.specs.Places.{new_cell};
ghost use Rattle.runner.specs.Days.{start_of, day_on, day_of, day_lines, Prints};
ghost use Rattle.runner.specs.Lawful.{LawfulDay};
ghost use Rattle.runner.specs.Running.{Ran};
ghost use Rattle.runner.specs.declared.fault.DayFault.TheVariants.{NoMemory};

use crate::fault::{CallFault, DayFault};
use crate::records::{put_refusal, run_records};
use board::Board;
use dayfile::{DayFile, JobKind, MemoryKind, Settings};
use jobs::{CardJob, Job, LabelJob};
use memory::{Direct, Memory, Queued};
use model::Cell;
use std::alloc::Global;

// The cells of a new board: what they hold is never seen.
fn blank_cells<J: Copy, O: Copy>(
    heap: Global,
    size: u16,
    job: J,
) -> Result<Vec<Cell<J, O>>, DayFault>
    ensures cells { MatchResult result (λ cells. cells.items ≡ replicate size (new_cell job)) (λ fault. fault ≡ NoMemory) }
{
    let mut cells = Vec::new(heap);
    cells.resize(size as usize, Cell::new(job))?;
    Ok(cells)
}

// The calls of a day file, on a board over this memory.
fn run_on<M: Memory + Drop, J: Job>(
    heap: Global,
    memory: M,
    any: J,
    day: &mut DayFile,
    out: &mut Vec<u8>,
) -> Result<(), DayFault>
    ensures ran { Ran J.form J.outcome M.picks (start_of J.form J.outcome any day.old.settings) (left J.form J.outcome day.old) out.old.items result out.new.items }
{
    let Settings { size, helpers, .. } = day.settings();
    let mut cells = blank_cells(heap, size, any)?;
    let mut board = Board::unmade(memory);
    board
        .make(size, helpers)
        .map_err(|fault| CallFault { fault, call: 0 })?;
    run_records(day, &mut board, cells.as_mut_slice(), out)
}

// The calls of a day file, for one kind of job.
fn run_jobs<J: Job>(
    heap: Global,
    any: J,
    day: &mut DayFile,
    out: &mut Vec<u8>,
) -> Result<(), DayFault>
    ensures prints { Prints (day_on J.form J.outcome any day.old.settings (left J.form J.outcome day.old)).lines (left J.form J.outcome day.old).fault out.old.items result out.new.items }
{
    match day.settings().memory {
        MemoryKind::Direct => run_on(heap, Direct::new(), any, day, out),
        MemoryKind::Queued => run_on(heap, Queued::new(), any, day, out),
    }
}

// The lines of a file's calls, up to its end or its first fault.
fn run_file(heap: Global, file: &[u8], out: &mut Vec<u8>) -> Result<(), DayFault>
    ensures prints { Prints (day_of file.now).lines (day_of file.now).fault out.old.items result out.new.items }
{
    let mut day = DayFile::open(file)?;
    match day.settings().jobs {
        JobKind::Cards => {
            let any = CardJob::Award { card: 0, amount: 0 };
            run_jobs(heap, any, &mut day, out)
        }
        JobKind::Labels => {
            let any = LabelJob { first: 0, count: 0 };
            run_jobs(heap, any, &mut day, out)
        }
    }
}

// Runs a day file and adds what it prints to the output: a line for each call, and one for a refused record, which
// ends the day. Where memory runs out, every line that was made is there.
#[tactic(auto, using(crate::proofs::Lawful::lawful_day))]
pub fn run_day(heap: Global, file: &[u8], out: &mut Vec<u8>) -> Result<(), DayFault>
    ensures prints { Prints (day_lines file.now) (day_of file.now).fault out.old.items result out.new.items }
    ensures lawful { LawfulDay file.now }
{
    let Err(fault) = run_file(heap, file, out) else {
        return Ok(());
    };
    let DayFault::File(refused) = fault else {
        return Err(fault);
    };
    put_refusal(refused, out)?;
    Err(fault)
}
