// Label jobs: print a run of labels. The outcome is how many were printed.
ghost use Rattle.std.specs.Prelude.{refl};
ghost use Rattle.jobs.specs.Label.{label_form, printed_form};
ghost use Rattle.jobs.specs.Back.{labels_back, printed_back};

use crate::fault::JobFault;
use crate::job::Job;
use crate::words::print_words;
use text::Text;

#[derive(Clone, Copy, Debug, PartialEq, Eq)]
pub struct LabelJob {
    pub first: u32,
    pub count: u16,
}

impl Job for LabelJob {
    type Outcome = u16;

    const JOB_BYTES: usize = 6;

    ghost JOB_BYTES = { 6 };

    const OUTCOME_BYTES: usize = 2;

    ghost OUTCOME_BYTES = { 2 };

    ghost form = { label_form };

    ghost outcome = { printed_form };

    ghost job_bytes = { refl };

    ghost outcome_bytes = { refl };

    ghost job_reads_back = { labels_back };

    ghost outcome_reads_back = { printed_back };

    fn decode(bytes: &[u8]) -> Result<LabelJob, JobFault> {
        if bytes.len() != LabelJob::JOB_BYTES {
            return Err(JobFault::WrongWidth);
        }
        Ok(LabelJob {
            first: u32::from_be_bytes([bytes[0], bytes[1], bytes[2], bytes[3]]),
            count: u16::from_be_bytes([bytes[4], bytes[5]]),
        })
    }

    fn decode_outcome(bytes: &[u8]) -> Result<u16, JobFault> {
        if bytes.len() != LabelJob::OUTCOME_BYTES {
            return Err(JobFault::WrongWidth);
        }
        Ok(u16::from_be_bytes([bytes[0], bytes[1]]))
    }

    fn print(self, out: &mut Text) {
        print_words(out, "labels ", self.first, self.count as u32);
    }

    fn print_outcome(value: u16, out: &mut Text) {
        out.push_number(value);
    }
}
