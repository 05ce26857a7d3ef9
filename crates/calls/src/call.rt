// The seven calls, over the types of a job and of its outcome.
ghost use Rattle.std.specs.Prelude.{◌≡◌, ◌≤◌, length};
ghost use Rattle.calls.specs.Calls.{party_of, name_of};
ghost use Rattle.text.specs.Content.{Gains};

use crate::party::Party;
use text::Text;

#[derive(Clone, Copy, Debug, PartialEq, Eq)]
pub enum Call<J, O> {
    Push { job: J },
    Pop,
    Retire,
    OwnerStep,
    HelperStep { helper: u8 },
    Finish { helper: u8, outcome: O },
    Land,
}

impl<J, O> Call<J, O> {
    pub fn party(&self) -> Party
        ensures party { result ≡ party_of self.now }
    {
        match self {
            Call::Push { .. } | Call::Pop | Call::Retire | Call::OwnerStep => Party::Owner,
            Call::HelperStep { helper } | Call::Finish { helper, .. } => Party::Helper {
                number: *helper,
            },
            Call::Land => Party::Memory,
        }
    }

    // Into a text and not by `Display`: `write!` may fail.
    pub fn print_name(&self, out: &mut Text)
        ensures gains { Gains out.old (name_of self.now) out.new }
        ensures short { length (name_of self.now) ≤ 6 }
    {
        out.push_str(match self {
            Call::Push { .. } => "push",
            Call::Pop => "pop",
            Call::Retire => "retire",
            Call::OwnerStep | Call::HelperStep { .. } => "step",
            Call::Finish { .. } => "finish",
            Call::Land => "land",
        });
    }
}
