// Reads a day file from standard input and prints what it holds.
// All it prints is made by `listing`; here is only what reaches outside.
#![tactic(auto)]

use dayfile::MOST_READ;
use listing::list_day;
use std::io::{Read, Write};

fn run(rt: &HostRuntime) -> anyhow::Result<()> {
    let mut bytes = Vec::new(rt.alloc());
    rt.stdin().take(MOST_READ).read_to_end(&mut bytes)?;
    let lines = list_day(rt.alloc(), bytes.as_slice())?;
    rt.stdout().write_all(lines.as_slice())?;
    Ok(())
}

fn main(rt: HostRuntime) -> anyhow::Result<()> {
    run(&rt)
}
