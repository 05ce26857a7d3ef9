// Runs each stored day and compares what it prints with what it must print.
// The files stand in data/: NAME.day is a day file, NAME.out the lines that it must print, to the byte.
#![tactic(auto)]

use runner::run_day;
use std::fs;

const DAYS: [&str; 17] = [
    "worked",
    "board_only",
    "empty",
    "cut_short",
    "second_board_record",
    "refused_in_the_middle",
    "too_long",
    "refusals_11_to_19",
    "cards_signed_ends",
    "two_helpers_changed",
    "nothing_shared_then_share",
    "shrink_with_takes_beyond",
    "shrink_finds_all_gone",
    "same_two_numbers_new_job",
    "queued_writes_wait_and_land",
    "busy_labels_direct",
    "busy_cards_queued",
];

fn prints_as_it_must(rt: &HostRuntime, name: &str) -> anyhow::Result<bool> {
    let heap = rt.alloc();
    let file = fs::read(rt, format!(in heap; "{name}.day")?)?;
    let must = fs::read(rt, format!(in heap; "{name}.out")?)?;
    let mut lines = Vec::new(heap);
    // A refused file has its line too.
    let _ = run_day(heap, file.as_slice(), &mut lines);
    Ok(lines.as_slice() == must.as_slice())
}

fn run(rt: &HostRuntime) -> anyhow::Result<()> {
    for name in DAYS {
        let word = if prints_as_it_must(rt, name)? {
            "as it must"
        } else {
            "otherwise"
        };
        println!(rt; "{name} prints {word}")?;
    }
    Ok(())
}

fn main(rt: HostRuntime) -> anyhow::Result<()> {
    run(&rt)
}
