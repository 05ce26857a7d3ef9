// Card jobs: award points to a card, or issue or withdraw a voucher. The outcome is the card's balance.
ghost use Rattle.std.specs.Prelude.{refl};
ghost use Rattle.jobs.specs.Card.{card_form, balance_form};
ghost use Rattle.jobs.specs.Back.{cards_back, balances_back};

use crate::fault::JobFault;
use crate::job::Job;
use crate::words::print_words;
use text::Text;

#[derive(Clone, Copy, Debug, PartialEq, Eq)]
pub enum CardJob {
    Award { card: u32, amount: u32 },
    Issue { card: u32, voucher: u32 },
    Withdraw { card: u32, voucher: u32 },
}

impl Job for CardJob {
    // The card's balance, which may be below zero.
    type Outcome = i32;

    const JOB_BYTES: usize = 9;

    ghost JOB_BYTES = { 9 };

    const OUTCOME_BYTES: usize = 4;

    ghost OUTCOME_BYTES = { 4 };

    ghost form = { card_form };

    ghost outcome = { balance_form };

    ghost job_bytes = { refl };

    ghost outcome_bytes = { refl };

    ghost job_reads_back = { cards_back };

    ghost outcome_reads_back = { balances_back };

    fn decode(bytes: &[u8]) -> Result<CardJob, JobFault> {
        if bytes.len() != CardJob::JOB_BYTES {
            return Err(JobFault::WrongWidth);
        }
        let card = u32::from_be_bytes([bytes[1], bytes[2], bytes[3], bytes[4]]);
        let number = u32::from_be_bytes([bytes[5], bytes[6], bytes[7], bytes[8]]);
        match bytes[0] {
            1 => Ok(CardJob::Award {
                card,
                amount: number,
            }),
            2 => Ok(CardJob::Issue {
                card,
                voucher: number,
            }),
            3 => Ok(CardJob::Withdraw {
                card,
                voucher: number,
            }),
            _ => Err(JobFault::UnknownAction),
        }
    }

    fn decode_outcome(bytes: &[u8]) -> Result<i32, JobFault> {
        if bytes.len() != CardJob::OUTCOME_BYTES {
            return Err(JobFault::WrongWidth);
        }
        Ok(i32::from_be_bytes([bytes[0], bytes[1], bytes[2], bytes[3]]))
    }

    fn print(self, out: &mut Text) {
        match self {
            CardJob::Award { card, amount } => print_words(out, "award ", card, amount),
            CardJob::Issue { card, voucher } => print_words(out, "issue ", card, voucher),
            CardJob::Withdraw { card, voucher } => print_words(out, "withdraw ", card, voucher),
        }
    }

    fn print_outcome(value: i32, out: &mut Text) {
        out.push_number(value);
    }
}
