// What every kind of job offers. Code above is generic over it and proved once for every kind.
ghost use Rattle.std.specs.Prelude.{◌≡◌, ℕ};
ghost use Rattle.jobs.specs.Form.{Form, Prints, ReadsBack};

use crate::fault::JobFault;
use text::Text;

// Job and outcome stand side by side in one trait, with both widths as constants: that is a rule of the project.
pub trait Job: Copy {
    // What comes back once a job is finished.
    type Outcome: Copy;

    // How many bytes a job and an outcome have in a day file.
    const JOB_BYTES: usize;

    ghost JOB_BYTES: { ℕ };

    const OUTCOME_BYTES: usize;

    ghost OUTCOME_BYTES: { ℕ };

    // How jobs and outcomes stand in a day file and in a printed line.
    ghost form: { Form Self };

    ghost outcome: { Form Self.Outcome };

    final fn width() -> usize
        ensures width { result ≡ form.width }
    {
        Self::JOB_BYTES
    }

    final fn outcome_width() -> usize
        ensures width { result ≡ outcome.width }
    {
        Self::OUTCOME_BYTES
    }

    fn decode(bytes: &[u8]) -> Result<Self, JobFault>
        ensures decoded { result ≡ form.decoded bytes.now };

    fn decode_outcome(bytes: &[u8]) -> Result<Self::Outcome, JobFault>
        ensures decoded { result ≡ outcome.decoded bytes.now };

    // Into a text and not by `Display`: `write!` may fail.
    fn print(self, out: &mut Text)
        ensures prints { Prints form self out.old out.new };

    fn print_outcome(value: Self::Outcome, out: &mut Text)
        ensures prints { Prints outcome value out.old out.new };

    // The laws, which every `impl` proves. The constants are the widths of the forms.
    ghost job_bytes: { JOB_BYTES ≡ form.width };

    ghost outcome_bytes: { OUTCOME_BYTES ≡ outcome.width };

    // What a job or an outcome is encoded as, it is decoded from.
    ghost job_reads_back: { ReadsBack form };

    ghost outcome_reads_back: { ReadsBack outcome };
}
