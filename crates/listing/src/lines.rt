// The text of each line of a listing: in a text and not by `format!`, which would want memory of its own.
ghost use Rattle.std.specs.Prelude.{◌≡◌, ◌≤◌, length};
ghost use Rattle.text.specs.Content.{content, Gains};
ghost use Rattle.listing.specs.Counts.{closing_front, closing_back};
ghost use Rattle.listing.specs.Lines.{board_line, argument, call_line};

use crate::counts::Counts;
use calls::Call;
use dayfile::Settings;
use jobs::Job;
use text::Text;

pub(crate) fn board_text(settings: Settings) -> Text
    ensures text { content result ≡ board_line settings }
    ensures fits { length (board_line settings) ≤ 80 }
{
    let mut out = Text::new();
    out.push_str("board size ");
    out.push_number(settings.size);
    out.push_str(" helpers ");
    out.push_number(settings.helpers);
    out.push_str(" memory ");
    out.push_str(settings.memory.word());
    out.push_str(" jobs ");
    out.push_str(settings.jobs.word());
    out
}

fn print_argument<J: Job>(call: &Call<J, J::Outcome>, out: &mut Text)
    ensures gains { Gains out.old (argument J.form J.outcome call.now) out.new }
    ensures short { length (argument J.form J.outcome call.now) ≤ 31 }
{
    match call {
        Call::Push { job } => {
            out.push(b' ');
            job.print(out);
        }
        Call::Finish { outcome, .. } => {
            out.push(b' ');
            J::print_outcome(*outcome, out);
        }
        _ => {}
    }
}

pub(crate) fn call_text<J: Job>(number: u32, call: &Call<J, J::Outcome>) -> Text
    ensures text { content result ≡ call_line J.form J.outcome number call.now }
{
    let mut out = Text::new();
    out.push_number(number);
    out.push(b' ');
    call.party().print(&mut out);
    out.push(b' ');
    call.print_name(&mut out);
    print_argument(call, &mut out);
    out
}

// The closing line is longer than a text has room for, so it has two.
pub(crate) fn closing_front_text(counts: &Counts) -> Text
    ensures text { content result ≡ closing_front counts.now }
    ensures fits { length (closing_front counts.now) ≤ 80 }
{
    let mut out = Text::new();
    out.push_number(counts.total());
    out.push_str(" calls: push ");
    out.push_number(counts.push);
    out.push_str(", pop ");
    out.push_number(counts.pop);
    out.push_str(", retire ");
    out.push_number(counts.retire);
    out
}

pub(crate) fn closing_back_text(counts: &Counts) -> Text
    ensures text { content result ≡ closing_back counts.now }
    ensures fits { length (closing_back counts.now) ≤ 80 }
{
    let mut out = Text::new();
    out.push_str(", owner step ");
    out.push_number(counts.owner_step);
    out.push_str(", helper step ");
    out.push_number(counts.helper_step);
    out.push_str(", finish ");
    out.push_number(counts.finish);
    out.push_str(", land ");
    out.push_number(counts.land);
    out
}
