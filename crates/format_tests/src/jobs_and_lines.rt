// Jobs and outcomes at the ends of their ranges, and listings that end in a refusal.
use jobs::{CardJob, Job, JobFault, LabelJob};
use listing::list_day;
use std::process::Abort;
use std::test::Fail;
use text::Text;

fn shows<J: Job>(rt: &impl Abort, job: J, expected: &[u8]) {
    let mut out = Text::new();
    job.print(&mut out);
    assert!(rt; out.as_bytes() == expected);
}

fn balance(rt: &impl Abort, bytes: &[u8], value: i32, expected: &[u8]) {
    assert_eq!(rt; CardJob::decode_outcome(bytes), Ok(value));
    let mut out = Text::new();
    CardJob::print_outcome(value, &mut out);
    assert!(rt; out.as_bytes() == expected);
}

#[test]
fn balances_at_both_ends(rt: HostRuntime) {
    balance(&rt, &[0x7f, 0xff, 0xff, 0xff], 2_147_483_647, b"2147483647");
    balance(&rt, &[0x80, 0, 0, 0], -2_147_483_648, b"-2147483648");
    balance(&rt, &[0xff, 0xff, 0xff, 0xff], -1, b"-1");
    balance(&rt, &[0, 0, 0, 0], 0, b"0");
}

#[test]
fn card_jobs(rt: HostRuntime) {
    assert_eq!(rt;
        CardJob::decode(&[1, 0, 0, 0, 17, 0, 0, 0, 5]),
        Ok(CardJob::Award {
            card: 17,
            amount: 5,
        })
    );
    shows(
        &rt,
        CardJob::Award {
            card: 17,
            amount: 5,
        },
        b"award 17 5",
    );
    shows(
        &rt,
        CardJob::Issue {
            card: 17,
            voucher: 5,
        },
        b"issue 17 5",
    );
    let most = CardJob::Withdraw {
        card: 4_294_967_295,
        voucher: 4_294_967_295,
    };
    assert_eq!(rt;
        CardJob::decode(&[3, 255, 255, 255, 255, 255, 255, 255, 255]),
        Ok(most)
    );
    shows(&rt, most, b"withdraw 4294967295 4294967295");
    assert_eq!(rt;
        CardJob::decode(&[0, 0, 0, 0, 17, 0, 0, 0, 5]),
        Err(JobFault::UnknownAction)
    );
    assert_eq!(rt;
        CardJob::decode(&[4, 0, 0, 0, 17, 0, 0, 0, 5]),
        Err(JobFault::UnknownAction)
    );
}

#[test]
fn label_jobs(rt: HostRuntime) {
    shows(
        &rt,
        LabelJob {
            first: 100,
            count: 5,
        },
        b"labels 100 5",
    );
    let most = LabelJob {
        first: 4_294_967_295,
        count: 65_535,
    };
    assert_eq!(rt; LabelJob::decode(&[255, 255, 255, 255, 255, 255]), Ok(most));
    shows(&rt, most, b"labels 4294967295 65535");
    assert_eq!(rt; LabelJob::decode_outcome(&[255, 255]), Ok(65_535));
}

#[test]
fn widths(rt: HostRuntime) {
    assert_eq!(rt;
        CardJob::decode(&[1, 0, 0, 0, 17, 0, 0, 0]),
        Err(JobFault::WrongWidth)
    );
    assert_eq!(rt;
        CardJob::decode(&[1, 0, 0, 0, 17, 0, 0, 0, 5, 0]),
        Err(JobFault::WrongWidth)
    );
    assert_eq!(rt;
        CardJob::decode_outcome(&[0, 0, 5]),
        Err(JobFault::WrongWidth)
    );
    assert_eq!(rt;
        CardJob::decode_outcome(&[0, 0, 0, 5, 0]),
        Err(JobFault::WrongWidth)
    );
    assert_eq!(rt;
        LabelJob::decode(&[0, 0, 0, 1, 0]),
        Err(JobFault::WrongWidth)
    );
    assert_eq!(rt;
        LabelJob::decode(&[0, 0, 0, 1, 0, 1, 0]),
        Err(JobFault::WrongWidth)
    );
    assert_eq!(rt; LabelJob::decode_outcome(&[5]), Err(JobFault::WrongWidth));
    assert_eq!(rt;
        LabelJob::decode_outcome(&[0, 5, 0]),
        Err(JobFault::WrongWidth)
    );
    assert_eq!(rt; (CardJob::JOB_BYTES, CardJob::OUTCOME_BYTES), (9, 4));
    assert_eq!(rt; (LabelJob::JOB_BYTES, LabelJob::OUTCOME_BYTES), (6, 2));
}

#[test]
fn a_listing_ends_at_the_refused_record(rt: HostRuntime) -> Result<(), Fail> {
    let day = [
        1, 0, 5, 0, 2, 16, 1, 0, 7, 0, 5, 16, 128, 0, 0, 0, 8, 0, 0, 9, 0, 0, 3, 0, 0,
    ];
    let lines = list_day(rt.alloc(), &day)?;
    assert!(rt;
        lines.as_slice()
            == b"board size 2 helpers 16 memory queued jobs cards\n1 H16 finish -2147483648\n2 M land\nrefused 3 at 19\n".as_slice()
    );
    Ok(())
}

#[test]
fn an_empty_file_is_refused(rt: HostRuntime) -> Result<(), Fail> {
    let lines = list_day(rt.alloc(), &[])?;
    assert!(rt; lines.as_slice() == b"refused 2 at 0\n".as_slice());
    Ok(())
}
