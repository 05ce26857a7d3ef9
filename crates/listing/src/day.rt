// The whole listing, line after line as the records are read.
ghost use Rattle.std.specs.Prelude.{◌≡◌, ◌++◌, IfOk, OnOk};
ghost use Rattle.dayfile.specs.Opened.{left};
ghost use Rattle.text.specs.Content.{content, line};
ghost use Rattle.listing.specs.Counts.{nothing_yet, closing};
ghost use Rattle.listing.specs.Listing.{lines_of, listing, WrittenDayListed};
ghost use Rattle.dayfile.specs.declared.settings.JobKind.TheVariants.{Cards, Labels};
ghost use Rattle.jobs.specs.Card.{card_form, balance_form};
ghost use Rattle.jobs.specs.Label.{label_form, printed_form};

use crate::counts::Counts;
use crate::lines::{board_text, call_text, closing_back_text, closing_front_text};
use dayfile::{DayFile, JobKind};
use jobs::{CardJob, Job, LabelJob};
use std::alloc::{AllocError, Global};
use text::Text;

fn put_line(text: &Text, out: &mut Vec<u8>) -> Result<(), AllocError>
    ensures line { OnOk result (out.new.items ≡ out.old.items ++ line (content text.now)) }
{
    out.extend_from_slice(text.as_bytes())?;
    out.push(b'\n')?;
    Ok(())
}

fn put_counts(counts: &Counts, out: &mut Vec<u8>) -> Result<(), AllocError>
    ensures line { OnOk result (out.new.items ≡ out.old.items ++ line (closing counts.now)) }
{
    out.extend_from_slice(closing_front_text(counts).as_bytes())?;
    put_line(&closing_back_text(counts), out)
}

fn list_calls<J: Job>(file: &mut DayFile, out: &mut Vec<u8>) -> Result<(), AllocError>
    ensures lines { OnOk result (out.new.items ≡ out.old.items ++ lines_of J.form J.outcome nothing_yet (left J.form J.outcome file.old)) }
{
    let mut counts = Counts::default();
    loop {
        match file.next::<J>() {
            Ok(Some(call)) => {
                counts.add(&call);
                put_line(&call_text(counts.total(), &call), out)?;
            }
            Ok(None) => return put_counts(&counts, out),
            Err(fault) => return put_line(&fault.text(), out),
        }
    }
}

fn list_into(bytes: &[u8], out: &mut Vec<u8>) -> Result<(), AllocError>
    ensures listing { OnOk result (out.new.items ≡ out.old.items ++ listing bytes.now) }
{
    // No `?`: a file that is refused has a listing too.
    let mut file = match DayFile::open(bytes) {
        Ok(file) => file,
        Err(fault) => return put_line(&fault.text(), out),
    };
    let settings = file.settings();
    put_line(&board_text(settings), out)?;
    match settings.jobs {
        JobKind::Cards => list_calls::<CardJob>(&mut file, out),
        JobKind::Labels => list_calls::<LabelJob>(&mut file, out),
    }
}

// The listing of a day file, or want of memory.
#[tactic(auto, using(crate::proofs::Written::card_days, crate::proofs::Written::label_days))]
pub fn list_day(heap: Global, bytes: &[u8]) -> Result<Vec<u8>, AllocError>
    ensures listing { IfOk result (λ out. out.items ≡ listing bytes.now) }
    ensures card_days { WrittenDayListed Cards card_form balance_form }
    ensures label_days { WrittenDayListed Labels label_form printed_form }
{
    let mut out = Vec::new(heap);
    list_into(bytes, &mut out)?;
    Ok(out)
}
