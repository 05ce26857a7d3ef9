// The two memories on small examples, as one would try them by hand.
// Nothing is tested here that no contract promises.
use crate::direct::Direct;
use crate::memory::Memory;
use crate::queued::Queued;
use crate::words::Write;

#[test]
fn ninth_write_lands_the_oldest(rt: HostRuntime) {
    let mut memory = Queued::new();
    for split in 1..9 {
        assert_eq!(rt; memory.write(Write::Split(split)), 0);
    }
    assert_eq!(rt; memory.helper_pair(), (0, 0));
    assert_eq!(rt; memory.write(Write::Split(9)), 1);
    assert_eq!(rt; memory.helper_pair(), (0, 1));
    assert_eq!(rt; memory.owner_pair(), (0, 9));
}

#[test]
fn split_write_leaves_the_tail(rt: HostRuntime) {
    let mut memory = Direct::new();
    assert_eq!(rt; memory.write(Write::Pair { tail: 3, split: 5 }), 1);
    assert_eq!(rt; memory.write(Write::Split(7)), 1);
    assert_eq!(rt; memory.helper_pair(), (3, 7));
}

#[test]
fn only_the_owner_sees_waiting_writes(rt: HostRuntime) {
    let mut memory = Queued::new();
    let _ = memory.write(Write::Pair { tail: 1, split: 4 });
    let _ = memory.write(Write::Request(true));
    assert_eq!(rt; memory.owner_pair(), (1, 4));
    assert_eq!(rt; memory.owner_tail(), 1);
    assert!(rt; memory.owner_request());
    assert_eq!(rt; memory.helper_pair(), (0, 0));
    assert!(rt; !memory.helper_request());
}

#[test]
fn swap_passes_only_at_the_pair(rt: HostRuntime) {
    let mut memory = Direct::new();
    let _ = memory.write(Write::Pair { tail: 1, split: 2 });
    assert!(rt; !memory.swap(0, 2));
    assert!(rt; !memory.swap(1, 3));
    assert!(rt; memory.swap(1, 2));
    assert!(rt; !memory.swap(2, 2), "nothing is left to steal");
    assert_eq!(rt; memory.helper_pair(), (2, 2));
}

#[test]
fn fence_counts_what_it_lands(rt: HostRuntime) {
    let mut memory = Queued::new();
    let _ = memory.write(Write::Flag(true));
    let _ = memory.write(Write::Split(6));
    assert_eq!(rt; memory.fence(), 2);
    assert_eq!(rt; memory.fence(), 0);
    assert!(rt; memory.helper_flag());
    assert_eq!(rt; memory.helper_pair(), (0, 6));
}

#[test]
fn land_takes_one_at_a_time(rt: HostRuntime) {
    let mut memory = Queued::new();
    assert_eq!(rt; memory.land(), 0);
    let _ = memory.write(Write::Split(1));
    let _ = memory.write(Write::Flag(true));
    assert_eq!(rt; memory.land(), 1);
    assert_eq!(rt; memory.helper_pair(), (0, 1));
    assert!(rt; !memory.helper_flag());
}

#[test]
fn ask_is_seen_at_once(rt: HostRuntime) {
    let mut memory = Queued::new();
    memory.ask();
    assert!(rt; memory.helper_request());
    assert!(rt; memory.owner_request());
}
