// Each board here has label jobs, and a direct memory unless said otherwise.
use board::Board;
use calls::Call;
use jobs::LabelJob;
use memory::{Direct, Queued};
use model::{Answer, Cell, Refusal, Reply};

fn blank() -> Cell<LabelJob, u16> {
    Cell::new(LabelJob { first: 0, count: 0 })
}

// The number of the refusal, if the call was refused.
fn refusal(reply: Reply<LabelJob, u16>) -> Option<u8> {
    match reply.answer {
        Answer::Refused(refusal) => Some(refusal.number()),
        _ => None,
    }
}

fn push(first: u32) -> Call<LabelJob, u16> {
    Call::Push {
        job: LabelJob { first, count: 1 },
    }
}

// Each call but land is handed the board's cells, so one cell too few is refused, and the board goes on.
#[test]
fn wrong_cells(rt: HostRuntime) {
    let mut board: Board<Direct, LabelJob> = Board::unmade(Direct::new());
    let mut cells = [blank(); 2];
    let mut few = [blank(); 1];
    assert!(rt; board.make(2, 1).is_ok());
    assert_eq!(rt; refusal(board.call(push(1), &mut few)), Some(10));
    assert_eq!(rt; refusal(board.call(push(1), &mut cells)), None);
    assert_eq!(rt; refusal(board.call(Call::OwnerStep, &mut few)), Some(10));
    assert_eq!(rt; refusal(board.call(Call::OwnerStep, &mut cells)), None);
    assert_eq!(rt;
        refusal(board.call(Call::HelperStep { helper: 0 }, &mut few)),
        Some(10)
    );
    assert_eq!(rt; refusal(board.call(Call::Land, &mut few)), None);
}

// A board that was never made has no position and no helper.
#[test]
fn unmade(rt: HostRuntime) {
    let mut board: Board<Queued, LabelJob> = Board::unmade(Queued::new());
    let mut cells = [blank(); 1];
    assert_eq!(rt; refusal(board.call(push(1), &mut cells)), Some(10));
    assert_eq!(rt; refusal(board.call(push(1), &mut [])), Some(14));
    assert_eq!(rt; refusal(board.call(Call::Pop, &mut [])), Some(15));
    assert_eq!(rt; refusal(board.call(Call::Retire, &mut [])), Some(15));
    assert_eq!(rt; refusal(board.call(Call::OwnerStep, &mut [])), Some(13));
    assert_eq!(rt;
        refusal(board.call(Call::HelperStep { helper: 1 }, &mut [])),
        Some(11)
    );
    assert_eq!(rt; refusal(board.call(Call::Land, &mut [])), None);
}

// Sizes 1 to 1,024 and helpers 1 to 16 pass. A refused making leaves the board as it was.
#[test]
fn makings(rt: HostRuntime) {
    let mut board: Board<Direct, LabelJob> = Board::unmade(Direct::new());
    let mut cells = [blank(); 1];
    assert!(rt; board.make(1, 1).is_ok());
    assert_eq!(rt; refusal(board.call(push(1), &mut cells)), None);
    for (size, helpers, number) in [(0, 1, 6), (1025, 0, 6), (1, 0, 7), (1024, 17, 7)] {
        assert_eq!(rt;
            board.make(size, helpers).map_err(Refusal::number),
            Err(number)
        );
    }
    assert_eq!(rt;
        refusal(board.call(push(2), &mut cells)),
        Some(12),
        "the first push is still under way"
    );
    assert!(rt; board.make(1024, 16).is_ok());
    assert_eq!(rt; refusal(board.call(Call::Pop, &mut cells)), Some(10));
}
