ghost use Rattle.std.specs.Prelude.{◌≡◌, ◌≤◌, false, [], length, IfOk, MatchOption, MatchResult};
ghost use Rattle.loglines.specs.Lines.{First, Lines, Uncut, OneCut, texts};
ghost use Rattle.loglines.specs.Text.{OneCommand};
ghost use Rattle.loglines.specs.Readings.{open_after, Readings, LogRead, OneReading};

use crate::command::Command;
use crate::fault::{LogError, LogFault};
use crate::read::{Reading, read_line};
use crate::scan::span;
use std::alloc::{AllocError, Global};

// The longest log that is read.
pub const LONGEST_LOG: usize = 32768;

// The first line of `rest` without its line feed, and what follows it; none where nothing is left.
pub fn next_line(rest: &[u8]) -> Option<(&[u8], &[u8])>
    ensures { MatchOption result (rest.now ≡ []) (λ p. First rest.now p.0.now p.1.now) }
{
    if rest.is_empty() {
        return None;
    }
    let (line, tail) = rest.split_at(span(rest, b'\n'));
    match tail {
        [] => Some((line, tail)),
        [_, after @ ..] => Some((line, after)),
    }
}

// The lines of an input of at most 32,768 bytes, without their line feeds.
// A last line that has no line feed counts if it has a byte.
// A loop over `next_line`, since an iterator of its own says the same in more lines.
pub fn lines(heap: Global, input: &[u8]) -> Result<Vec<&[u8]>, LogError>
    ensures { MatchResult result (λ v. (length input.now ≤ 32768) × Lines input.now (texts v.items)) (λ e. Uncut input.now e) }
{
    if input.len() > LONGEST_LOG {
        return Err(LogError::Refused(LogFault::Long));
    }
    let mut out = Vec::new(heap);
    let mut rest = input;
    while let Some((line, tail)) = next_line(rest) {
        out.push(line)?;
        rest = tail;
    }
    Ok(out)
}

// Whether a sheet is open after a line, where `opened` says whether one was open before it.
fn open_after(opened: bool, reading: Reading) -> bool
    ensures { result ≡ open_after opened reading }
{
    opened || matches!(reading, Ok(Command::Open { .. }))
}

// What each line asks for, in the state that the lines before it leave. No sheet is open before the first.
fn read_lines(heap: Global, lines: &[&[u8]]) -> Result<Vec<Reading>, AllocError>
    ensures { IfOk result (λ v. Readings false (texts lines.now) v.items) }
{
    let mut readings = Vec::new(heap);
    // A flag, as `read` takes it.
    let mut opened = false;
    for line in lines {
        let reading = read_line(line, opened);
        opened = open_after(opened, reading);
        readings.push(reading)?;
    }
    Ok(readings)
}

// What the lines of a whole log ask for, one reading for each line.
#[tactic(auto, using(crate::proofs::Commands::one_command))]
pub fn read_log(heap: Global, input: &[u8]) -> Result<Vec<Reading>, LogError>
    ensures read { MatchResult result (λ v. LogRead input.now v.items) (λ e. Uncut input.now e) }
    ensures one_command { OneCommand }
    ensures one_cut { OneCut }
    ensures one_reading { OneReading }
{
    let lines = lines(heap, input)?;
    Ok(read_lines(heap, lines.as_slice())?)
}
