// Day files: each refusal at its place, which of two comes first, and a day cut at every byte.
use dayfile::{DayFile, FileFault};
use jobs::{CardJob, Job, LabelJob};
use std::process::Abort;
use std::test::Fail;

// Reads the file to its end, or to its first refusal.
fn read_whole<J: Job>(bytes: &[u8]) -> Result<(), FileFault> {
    let mut file = DayFile::open(bytes)?;
    while file.next::<J>()?.is_some() {}
    Ok(())
}

// The number and the place of the first refusal.
fn refusal<J: Job>(bytes: &[u8]) -> Option<(u8, usize)> {
    let fault = read_whole::<J>(bytes).err()?;
    Some((fault.number(), fault.place))
}

fn refused<J: Job>(rt: &impl Abort, bytes: &[u8], number: u8, place: usize) -> Result<(), Fail> {
    assert_eq!(rt; refusal::<J>(bytes), Some((number, place)));
    Ok(())
}

#[test]
fn too_long(rt: HostRuntime) -> Result<(), Fail> {
    let longest = vec![in rt.alloc(); 0u8; 61_440]?;
    refused::<LabelJob>(&rt, longest.as_slice(), 3, 0)?;
    let longer = vec![in rt.alloc(); 0u8; 61_441]?;
    // The length comes before the tag.
    refused::<LabelJob>(&rt, longer.as_slice(), 1, 0)
}

#[test]
fn cut_short(rt: HostRuntime) -> Result<(), Fail> {
    refused::<LabelJob>(&rt, &[], 2, 0)?;
    refused::<LabelJob>(&rt, &[1, 0], 2, 0)?;
    refused::<LabelJob>(&rt, &[1, 0, 5, 0, 2, 1, 0], 2, 0)?;
    refused::<LabelJob>(&rt, &[1, 0, 5, 0, 2, 1, 0, 1, 5], 2, 8)?;
    refused::<LabelJob>(&rt, &[1, 0, 5, 0, 2, 1, 0, 1, 3, 0, 0, 2, 0, 6, 0], 2, 11)
}

#[test]
fn unknown_tag(rt: HostRuntime) -> Result<(), Fail> {
    refused::<LabelJob>(&rt, &[0, 0, 0], 3, 0)?;
    refused::<LabelJob>(&rt, &[1, 0, 5, 0, 2, 1, 0, 1, 9, 0, 0], 3, 8)?;
    refused::<LabelJob>(&rt, &[1, 0, 5, 0, 2, 1, 0, 1, 8, 0, 0, 255, 0, 0], 3, 11)
}

#[test]
fn out_of_order(rt: HostRuntime) -> Result<(), Fail> {
    refused::<LabelJob>(&rt, &[3, 0, 0], 4, 0)?;
    refused::<LabelJob>(&rt, &[1, 0, 5, 0, 2, 1, 0, 1, 1, 0, 5, 0, 2, 1, 0, 1], 4, 8)
}

#[test]
fn wrong_length(rt: HostRuntime) -> Result<(), Fail> {
    refused::<LabelJob>(&rt, &[1, 0, 4, 0, 2, 1, 0], 5, 0)?;
    refused::<LabelJob>(&rt, &[1, 0, 6, 0, 2, 1, 0, 1, 0], 5, 0)?;
    refused::<LabelJob>(&rt, &[1, 0, 5, 0, 2, 1, 0, 1, 3, 0, 1, 0], 5, 8)?;
    refused::<LabelJob>(&rt, &[1, 0, 5, 0, 2, 1, 0, 1, 6, 0, 0], 5, 8)?;
    refused::<LabelJob>(&rt, &[1, 0, 5, 0, 2, 1, 0, 1, 2, 0, 5, 0, 0, 0, 1, 0], 5, 8)?;
    refused::<LabelJob>(&rt, &[1, 0, 5, 0, 2, 1, 0, 1, 7, 0, 2, 1, 0], 5, 8)?;
    refused::<CardJob>(
        &rt,
        &[1, 0, 5, 0, 2, 1, 0, 0, 2, 0, 6, 1, 0, 0, 0, 1, 0],
        5,
        8,
    )?;
    refused::<CardJob>(&rt, &[1, 0, 5, 0, 2, 1, 0, 0, 7, 0, 3, 1, 0, 5], 5, 8)
}

#[test]
fn size_helpers_and_kinds(rt: HostRuntime) -> Result<(), Fail> {
    refused::<LabelJob>(&rt, &[1, 0, 5, 0, 0, 1, 0, 1], 6, 0)?;
    refused::<LabelJob>(&rt, &[1, 0, 5, 4, 1, 1, 0, 1], 6, 0)?;
    assert_eq!(rt; refusal::<LabelJob>(&[1, 0, 5, 0, 1, 1, 0, 1]), None);
    assert_eq!(rt; refusal::<LabelJob>(&[1, 0, 5, 4, 0, 16, 1, 1]), None);
    refused::<LabelJob>(&rt, &[1, 0, 5, 0, 2, 0, 0, 1], 7, 0)?;
    refused::<LabelJob>(&rt, &[1, 0, 5, 0, 2, 17, 0, 1], 7, 0)?;
    refused::<LabelJob>(&rt, &[1, 0, 5, 0, 2, 1, 2, 1], 8, 0)?;
    refused::<LabelJob>(&rt, &[1, 0, 5, 0, 2, 1, 0, 2], 8, 0)
}

#[test]
fn unknown_action(rt: HostRuntime) -> Result<(), Fail> {
    refused::<CardJob>(
        &rt,
        &[1, 0, 5, 0, 2, 1, 0, 0, 2, 0, 9, 0, 0, 0, 0, 1, 0, 0, 0, 1],
        9,
        8,
    )?;
    refused::<CardJob>(
        &rt,
        &[1, 0, 5, 0, 2, 1, 0, 0, 2, 0, 9, 4, 0, 0, 0, 1, 0, 0, 0, 1],
        9,
        8,
    )?;
    assert_eq!(rt;
        refusal::<CardJob>(&[1, 0, 5, 0, 2, 1, 0, 0, 2, 0, 9, 3, 0, 0, 0, 1, 0, 0, 0, 1]),
        None
    );
    Ok(())
}

#[test]
fn the_first_of_two_refusals(rt: HostRuntime) -> Result<(), Fail> {
    // A bad tag, cut short.
    refused::<LabelJob>(&rt, &[9, 0, 1], 2, 0)?;
    // A bad tag, first.
    refused::<LabelJob>(&rt, &[9, 0, 0], 3, 0)?;
    // A pop of a wrong length, first.
    refused::<LabelJob>(&rt, &[3, 0, 1, 7], 4, 0)?;
    // A second board of a wrong length.
    refused::<LabelJob>(&rt, &[1, 0, 5, 0, 2, 1, 0, 1, 1, 0, 0], 4, 8)?;
    // A board of a wrong length and size.
    refused::<LabelJob>(&rt, &[1, 0, 4, 0, 0, 0, 2], 5, 0)?;
    // All of a board is wrong.
    refused::<LabelJob>(&rt, &[1, 0, 5, 0, 0, 0, 2, 2], 6, 0)?;
    // All of a board but its size.
    refused::<LabelJob>(&rt, &[1, 0, 5, 0, 1, 0, 2, 2], 7, 0)?;
    // A push of a wrong length and action.
    refused::<CardJob>(&rt, &[1, 0, 5, 0, 2, 1, 0, 0, 2, 0, 1, 9], 5, 8)
}

// Fifteen calls on a board of size 2: push, two steps, two of helper 1's, a step, pop, a step, one of helper 1's, four
// steps, helper 1's finish, retire.
const DAY: [u8; 65] = [
    1, 0, 5, 0, 2, 1, 0, 1, 2, 0, 6, 0, 0, 0, 100, 0, 5, 5, 0, 0, 5, 0, 0, 6, 0, 1, 1, 6, 0, 1, 1,
    5, 0, 0, 3, 0, 0, 5, 0, 0, 6, 0, 1, 1, 5, 0, 0, 5, 0, 0, 5, 0, 0, 5, 0, 0, 7, 0, 3, 1, 0, 5, 4,
    0, 0,
];

// Where its records begin, and its end.
const PLACES: [usize; 17] = [
    0, 8, 17, 20, 23, 27, 31, 34, 37, 40, 44, 47, 50, 53, 56, 62, 65,
];

#[test]
fn cut_at_every_byte(rt: HostRuntime) -> Result<(), Fail> {
    assert_eq!(rt; refusal::<LabelJob>(&DAY), None);
    for places in PLACES.windows(2) {
        let (start, end) = (places[0], places[1]);
        if start > 0 && start <= 65 {
            assert_eq!(rt; refusal::<LabelJob>(&DAY[..start]), None);
        }
        for cut in start..end {
            if cut <= 65 && (cut > start || start == 0) {
                refused::<LabelJob>(&rt, &DAY[..cut], 2, start)?;
            }
        }
    }
    Ok(())
}
