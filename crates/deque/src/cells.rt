// What the calls do to the cells, for every kind of job. Positions past the cells are left alone.
ghost use Rattle.std.specs.Prelude.{◌≡◌, ◌<◌, length, Some, None};
ghost use Rattle.model.specs.Helping.{marked, with_outcome};
ghost use Rattle.model.specs.Places.{at, at_number, changed, new_cell};
ghost use Rattle.deque.specs.Cells.{job_at, retirable};

use model::{Cell, Refusal};

// Writes a job into the cell at head. The index is tested by hand, since `get_mut` does not say what the slice ends as.
pub(crate) fn push<J: Copy, O: Copy>(cells: &mut [Cell<J, O>], head: u16, job: J)
    ensures pushed { cells.new ≡ changed cells.old head (λ _. new_cell job) }
{
    let at = head as usize;
    if at < cells.len() {
        cells[at] = Cell::new(job);
    }
}

// The cell below head.
pub(crate) fn top<J: Copy, O: Copy>(cells: &[Cell<J, O>], head: u16) -> Option<Cell<J, O>>
    ensures top { result ≡ at_number cells.now head }
{
    let at = (head as usize).checked_sub(1)?;
    cells.get(at).copied()
}

// The outcome of the job below head, or why it can't be retired.
pub(crate) fn retire<J: Copy, O: Copy>(
    cells: &[Cell<J, O>],
    head: u16,
    told: u16,
) -> Result<O, Refusal>
    ensures outcome { result ≡ retirable told head (at_number cells.now head) }
{
    let cell = top(cells, head).ok_or(Refusal::Empty)?;
    if told < head {
        return Err(Refusal::NotTold);
    }
    cell.outcome.ok_or(Refusal::Unfinished)
}

// Marks a cell with its taker, and reads its job.
pub(crate) fn take<J: Copy, O: Copy>(cells: &mut [Cell<J, O>], position: u16, helper: u8) -> J
    requires { position < length cells.old }
    ensures job { job_at cells.old position ≡ Some result }
    ensures marked { cells.new ≡ changed cells.old position (marked helper) }
{
    let cell = &mut cells[position as usize];
    cell.taker = Some(helper);
    cell.job
}

// Writes the outcome into a cell.
pub fn finish<J: Copy, O: Copy>(cells: &mut [Cell<J, O>], position: u16, outcome: O)
    ensures finished { cells.new ≡ changed cells.old position (with_outcome outcome) }
{
    let at = position as usize;
    if at < cells.len() {
        cells[at].outcome = Some(outcome);
    }
}
