// Who makes a call.
ghost use Rattle.std.specs.Prelude.{◌≤◌, length};
ghost use Rattle.calls.specs.Calls.{party_text};
ghost use Rattle.text.specs.Content.{Gains};

use text::Text;

#[derive(Clone, Copy, Debug, PartialEq, Eq)]
pub enum Party {
    Owner,
    Helper { number: u8 },
    // The memory itself, which lets waiting writes land.
    Memory,
}

impl Party {
    // Into a text and not by `Display`: `write!` may fail.
    pub fn print(self, out: &mut Text)
        ensures gains { Gains out.old (party_text self) out.new }
        ensures short { length (party_text self) ≤ 4 }
    {
        match self {
            Party::Owner => out.push(b'O'),
            Party::Helper { number } => {
                out.push(b'H');
                out.push_number(number);
            }
            Party::Memory => out.push(b'M'),
        }
    }
}
