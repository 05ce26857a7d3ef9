// What a call answers, and the numbers and words by which that is told.
ghost use Rattle.std.specs.Prelude.{◌≡◌, ◌≤◌, length};
ghost use Rattle.text.specs.Content.{Gains};
ghost use Rattle.model.specs.Naming.{number, layer_of, access_word, answer_word};
ghost use Rattle.model.specs.Owning.{ending_answer};

use crate::owner::Ending;
use calls::Layer;
use text::Text;

#[derive(Clone, Copy)]
pub struct Reply<J, O> {
    pub access: Access,
    // How many of the owner's writes landed.
    pub landed: u8,
    pub answer: Answer<J, O>,
}

// The access that a call made, or its own name where it made none.
#[derive(Clone, Copy)]
pub enum Access {
    WritePair,
    WriteSplit,
    WriteFlag,
    WriteRequest,
    ReadPair,
    ReadTail,
    ReadRequest,
    ReadFlag,
    Fence,
    Swap,
    Push,
    Pop,
    Retire,
    Step,
    Finish,
    Land,
}

#[derive(Clone, Copy)]
pub enum Answer<J, O> {
    // Work goes on.
    Going,
    Pushed,
    Work(J),
    Stolen,
    Retired(O),
    Taken(J),
    AllGone,
    NoShare,
    Changed,
    Finished,
    Refused(Refusal),
}

#[derive(Clone, Copy)]
pub enum Refusal {
    // The size is not 1 to 1,024.
    WrongSize,
    // The helpers are not 1 to 16.
    WrongHelpers,
    // The number of cells differs from the size.
    WrongCells,
    // The helper number is not 1 to the number of helpers.
    UnknownHelper,
    // A push, pop or retire comes while the owner's operation is unfinished.
    Busy,
    // An owner step comes with nothing begun.
    NothingBegun,
    // A push with head at size.
    Full,
    // A pop or retire with head at 0.
    Empty,
    // A retire with told below head.
    NotTold,
    // A retire of a job that is not finished.
    Unfinished,
    // A helper steps while holding a job.
    Holding,
    // A finish by a helper that holds none.
    HoldsNone,
    // A number just read does not fit.
    Misread,
}

// How a push or a pop answers once its shares are made.
impl<J, O> From<Ending<J>> for Answer<J, O> {
    ghost from_gives = { λ ending answer. answer ≡ ending_answer ending };

    fn from(ending: Ending<J>) -> Answer<J, O> {
        match ending {
            Ending::Pushed => Answer::Pushed,
            Ending::Work(job) => Answer::Work(job),
        }
    }
}

impl Access {
    // Into a text and not by `Display`: `write!` may fail.
    pub fn print(self, out: &mut Text)
        ensures gains { Gains out.old (access_word self) out.new }
        ensures short { length (access_word self) ≤ 10 }
    {
        out.push_str(match self {
            Access::WritePair => "writepair",
            Access::WriteSplit => "writesplit",
            Access::WriteFlag => "writeflag",
            Access::WriteRequest => "writereq",
            Access::ReadPair => "readpair",
            Access::ReadTail => "readtail",
            Access::ReadRequest => "readreq",
            Access::ReadFlag => "readflag",
            Access::Fence => "fence",
            Access::Swap => "swap",
            Access::Push => "push",
            Access::Pop => "pop",
            Access::Retire => "retire",
            Access::Step => "step",
            Access::Finish => "finish",
            Access::Land => "land",
        });
    }
}

impl<J, O> Answer<J, O> {
    // The word alone: a job, an outcome or a refusal's number comes after it. Into a text, as an access.
    pub fn print_word(&self, out: &mut Text)
        ensures gains { Gains out.old (answer_word self.now) out.new }
        ensures short { length (answer_word self.now) ≤ 8 }
    {
        out.push_str(match self {
            Answer::Going => "-",
            Answer::Pushed => "PUSHED",
            Answer::Work(_) => "WORK",
            Answer::Stolen => "STOLEN",
            Answer::Retired(_) => "RETIRED",
            Answer::Taken(_) => "TAKEN",
            Answer::AllGone => "ALLGONE",
            Answer::NoShare => "NOSHARE",
            Answer::Changed => "CHANGED",
            Answer::Finished => "FINISHED",
            Answer::Refused(_) => "refused",
        });
    }
}

impl Refusal {
    pub fn number(self) -> u8
        ensures number { result ≡ number self }
    {
        match self {
            Refusal::WrongSize => 6,
            Refusal::WrongHelpers => 7,
            Refusal::WrongCells => 10,
            Refusal::UnknownHelper => 11,
            Refusal::Busy => 12,
            Refusal::NothingBegun => 13,
            Refusal::Full => 14,
            Refusal::Empty => 15,
            Refusal::NotTold => 16,
            Refusal::Unfinished => 17,
            Refusal::Holding => 18,
            Refusal::HoldsNone => 19,
            Refusal::Misread => 20,
        }
    }

    // As each layer's fault does: `calls::Layer` says why there is no trait.
    pub fn layer(self) -> Layer
        ensures layer { result ≡ layer_of self }
    {
        Layer::Board
    }
}
