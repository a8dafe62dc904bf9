// Reads a day log from standard input, and prints what each line asks for and how many lines of each kind there are.
#![tactic(auto)]

use loglines::log::LONGEST_LOG;
use logreport::report::report;
use std::fmt;
use std::io::Read;

fn main(rt: HostRuntime) -> anyhow::Result<()> {
    // one byte more than a log may have tells that it is too long
    let mut input = Vec::new(rt.alloc());
    rt.stdin()
        .take(LONGEST_LOG as u64 + 1)
        .read_to_end(&mut input)?;
    // A report fails by want of memory alone; the program says so in the words of a text that could not be written.
    let text = report(rt.alloc(), input.as_slice()).map_err(|_| fmt::Error)?;
    rt.print(text)?;
    Ok(())
}
