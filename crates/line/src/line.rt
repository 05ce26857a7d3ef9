// How the line of a call is put together, and how it goes into the buffer.
ghost use Rattle.std.specs.Prelude.{◌≡◌, ◌≤◌, length};
ghost use Rattle.text.specs.Content.{content, Gains};
ghost use Rattle.line.specs.Lines.{detail, line_of, written, buffer_after};

use crate::fault::LineFault;
use calls::Party;
use jobs::Job;
use model::{Answer, Reply};
use text::Text;

// What comes after an answer's word: its job, its outcome or its refusal's number.
fn print_detail<J: Job>(answer: &Answer<J, J::Outcome>, out: &mut Text)
    ensures gains { Gains out.old (detail J.form J.outcome answer.now) out.new }
    ensures short { length (detail J.form J.outcome answer.now) ≤ 31 }
{
    match answer {
        Answer::Work(job) | Answer::Taken(job) => {
            out.push(b' ');
            job.print(out);
        }
        Answer::Retired(outcome) => {
            out.push(b' ');
            J::print_outcome(*outcome, out);
        }
        Answer::Refused(refusal) => {
            out.push(b' ');
            out.push_number(refusal.number());
        }
        _ => {}
    }
}

// Number, party and reply meet only on this way into a line, so there is no struct of the three. It is gathered in a text and
// not by `Display`: `write!` may fail.
fn line_text<J: Job>(number: u16, party: Party, reply: &Reply<J, J::Outcome>) -> Text
    ensures text { content result ≡ line_of J.form J.outcome number party reply.now }
    ensures fits { length (line_of J.form J.outcome number party reply.now) ≤ 80 }
{
    let mut out = Text::new();
    out.push_number(number);
    out.push(b' ');
    party.print(&mut out);
    out.push(b' ');
    reply.access.print(&mut out);
    out.push(b' ');
    out.push_number(reply.landed);
    out.push(b' ');
    reply.answer.print_word(&mut out);
    print_detail::<J>(&reply.answer, &mut out);
    out
}

// Writes the line of a call at the front of the buffer and answers how long it is. The newline is the caller's.
pub fn write_line<J: Job>(
    number: u16,
    party: Party,
    reply: &Reply<J, J::Outcome>,
    buffer: &mut [u8],
) -> Result<usize, LineFault>
    ensures answer { result ≡ written (line_of J.form J.outcome number party reply.now) buffer.old }
    ensures buffer { buffer.new ≡ buffer_after (line_of J.form J.outcome number party reply.now) buffer.old }
    ensures fits { length (line_of J.form J.outcome number party reply.now) ≤ 80 }
{
    let text = line_text::<J>(number, party, reply);
    if buffer.len() < Text::CAPACITY {
        return Err(LineFault::ShortBuffer);
    }
    let bytes = text.as_bytes();
    buffer[..bytes.len()].copy_from_slice(bytes);
    Ok(bytes.len())
}
