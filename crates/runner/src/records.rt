// The records of a day, one after another: each is run and its line made before the next is read.
ghost use Rattle.board.specs.Shown.{shown};
ghost use Rattle.dayfile.specs.Faults.{refusal_line};
ghost use Rattle.dayfile.specs.Opened.{left};
ghost use Rattle.line.specs.Lines.{line_of};
ghost use Rattle.model.specs.Histories.{New};
ghost use Rattle.text.specs.Content.{line};
ghost use Rattle.runner.specs.Printing.{Puts};
ghost use Rattle.runner.specs.Running.{Ran};

use crate::fault::{CallFault, DayFault};
use board::Board;
use calls::Party;
use dayfile::{DayFile, FileFault};
use jobs::Job;
use line::write_line;
use memory::Memory;
use model::{Cell, Reply};
use text::Text;

// The room of a line and its newline.
const LINE: usize = Text::CAPACITY + 1;

// One line more, whole or not at all.
fn put_line<J: Job>(
    number: u16,
    party: Party,
    reply: &Reply<J, J::Outcome>,
    out: &mut Vec<u8>,
) -> Result<(), DayFault>
    ensures puts { Puts (line (line_of J.form J.outcome number party reply.now)) out.old.items result out.new.items }
{
    let mut buffer = [b'\n'; LINE];
    let length = write_line::<J>(number, party, reply, &mut buffer).map_err(|fault| CallFault {
        fault,
        call: number,
    })?;
    out.extend_from_slice(&buffer[..length + 1])?;
    Ok(())
}

// The line of a refused record, whole or not at all.
pub(crate) fn put_refusal(fault: FileFault, out: &mut Vec<u8>) -> Result<(), DayFault>
    ensures puts { Puts (line (refusal_line fault)) out.old.items result out.new.items }
{
    let mut text = fault.text();
    text.push(b'\n');
    out.extend_from_slice(text.as_bytes())?;
    Ok(())
}

// Runs each call that is left of a day file.
pub(crate) fn run_records<M: Memory, J: Job>(
    day: &mut DayFile,
    board: &mut Board<M, J>,
    cells: &mut [Cell<J, J::Outcome>],
    out: &mut Vec<u8>,
) -> Result<(), DayFault>
    requires new { New (shown M.meaning board.old cells.old) }
    ensures ran { Ran J.form J.outcome M.picks (shown M.meaning board.old cells.old) (left J.form J.outcome day.old) out.old.items result out.new.items }
{
    // Counted beside the reading: an iterator of records that may each be refused, numbered by `zip`, would be no plainer.
    let mut number: u16 = 0;
    while let Some(call) = day.next::<J>()? {
        number += 1;
        let reply = board.call(call, cells);
        put_line::<J>(number, call.party(), &reply, out)?;
    }
    Ok(())
}
