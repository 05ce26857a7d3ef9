// The text that every kind of job has: a word and two numbers.
ghost use Rattle.std.specs.Prelude.{◌≤◌, length};
ghost use Rattle.jobs.specs.Form.{words};
ghost use Rattle.text.specs.Content.{Gains};

use text::Text;

pub(crate) fn print_words(out: &mut Text, word: &str, first: u32, second: u32)
    requires { length word.now ≤ 9 }
    ensures gains { Gains out.old (words word.now first second) out.new }
    ensures short { length (words word.now first second) ≤ 30 }
{
    out.push_str(word);
    out.push_number(first);
    out.push(b' ');
    out.push_number(second);
}
