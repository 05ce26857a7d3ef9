// Reads a day file from standard input, runs it, and prints a line for each call.
// All it prints is made by `runner`; here is only what reaches outside.
#![tactic(auto)]

use anyhow::anyhow;
use dayfile::MOST_READ;
use runner::{DayFault, run_day};
use std::io::{Read, Write};

fn run(rt: &HostRuntime) -> anyhow::Result<()> {
    let mut file = Vec::new(rt.alloc());
    rt.stdin().take(MOST_READ).read_to_end(&mut file)?;
    let mut lines = Vec::new(rt.alloc());
    let ended = run_day(rt.alloc(), file.as_slice(), &mut lines);
    // However the day ended, every line that was made is printed.
    rt.stdout().write_all(lines.as_slice())?;
    match ended {
        Ok(()) | Err(DayFault::File(_)) => Ok(()),
        Err(_) => Err(anyhow!("there is no memory for the rest of the day")),
    }
}

fn main(rt: HostRuntime) -> anyhow::Result<()> {
    run(&rt)
}
