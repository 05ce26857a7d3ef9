// Lines as they are printed, and a buffer that is too short.
// Nothing is tested here that no contract promises.
use crate::fault::LineFault;
use crate::line::write_line;
use calls::Party;
use jobs::{CardJob, Job, LabelJob};
use model::{Access, Answer, Refusal, Reply};
use std::process::Abort;

fn prints<J: Job>(
    rt: &impl Abort,
    number: u16,
    party: Party,
    reply: Reply<J, J::Outcome>,
    line: &[u8],
) {
    let mut buffer = [b'.'; 80];
    assert_eq!(rt;
        write_line::<J>(number, party, &reply, &mut buffer),
        Ok(line.len())
    );
    assert!(rt; &buffer[..line.len()] == line);
    assert_eq!(rt; buffer[79], b'.');
}

#[test]
fn lines(rt: HostRuntime) {
    let taken = Reply {
        access: Access::Swap,
        landed: 0,
        answer: Answer::Taken(LabelJob {
            first: 100,
            count: 5,
        }),
    };
    prints::<LabelJob>(
        &rt,
        9,
        Party::Helper { number: 1 },
        taken,
        b"9 H1 swap 0 TAKEN labels 100 5",
    );
    let retired = Reply {
        access: Access::WriteFlag,
        landed: 1,
        answer: Answer::Retired(-2_147_483_648),
    };
    prints::<CardJob>(
        &rt,
        20_477,
        Party::Owner,
        retired,
        b"20477 O writeflag 1 RETIRED -2147483648",
    );
    let refused = Reply {
        access: Access::Push,
        landed: 0,
        answer: Answer::Refused(Refusal::Full),
    };
    prints::<CardJob>(&rt, 3, Party::Owner, refused, b"3 O push 0 refused 14");
    let land = Reply {
        access: Access::Land,
        landed: 1,
        answer: Answer::Going,
    };
    prints::<LabelJob>(&rt, 4, Party::Memory, land, b"4 M land 1 -");
}

#[test]
fn short_buffer(rt: HostRuntime) {
    let gone = Reply {
        access: Access::ReadFlag,
        landed: 0,
        answer: Answer::AllGone,
    };
    let mut buffer = [b'.'; 79];
    assert_eq!(rt;
        write_line::<LabelJob>(1, Party::Helper { number: 16 }, &gone, &mut buffer),
        Err(LineFault::ShortBuffer)
    );
    assert_eq!(rt; buffer[0], b'.');
}
