ghost use Rattle.std.specs.Prelude.{◌≡◌, ◌++◌, IfOk, IfErr, string_bytes, OnOk};
ghost use Rattle.logreport.specs.Counts.{EachOnce};
ghost use Rattle.logreport.specs.Reports.{listing, summary, refusal, Reported, OneReport};

use crate::count::{Kind, count};
use crate::said::Said;
use loglines::fault::{LogError, LogFault};
use loglines::log::read_log;
use loglines::read::Reading;
use std::alloc::{AllocError, Global};

// Adds a line for each reading, numbered from 1.
fn list(out: &mut String, readings: &[Reading]) -> Result<(), AllocError>
    ensures { OnOk result (string_bytes out.new ≡ string_bytes out.old ++ listing 1 readings.now) }
{
    for (i, reading) in readings.iter().enumerate() {
        let said = Said {
            line: i + 1,
            reading: *reading,
        };
        writeln!(out, "{said}")?;
    }
    Ok(())
}

// Adds the number of lines, and a line for each kind with how many readings are of it.
fn sum_up(out: &mut String, readings: &[Reading]) -> Result<(), AllocError>
    ensures { OnOk result (string_bytes out.new ≡ string_bytes out.old ++ summary readings.now) }
{
    let lines = readings.len();
    writeln!(out, "lines read {lines}")?;
    for kind in Kind::ALL {
        let n = count(readings, kind);
        writeln!(out, "{kind} {n}")?;
    }
    Ok(())
}

// The report on a log that is read.
fn listed(heap: Global, readings: &[Reading]) -> Result<String, LogError>
    ensures text { IfOk result (λ s. string_bytes s ≡ listing 1 readings.now ++ summary readings.now) }
    ensures failed { IfErr result (λ e. e ≡ LogError.NoMemory) }
{
    let mut out = String::new(heap);
    list(&mut out, readings)?;
    sum_up(&mut out, readings)?;
    Ok(out)
}

// The report on a log that is refused whole.
fn refused(heap: Global, fault: LogFault) -> Result<String, LogError>
    ensures text { IfOk result (λ s. string_bytes s ≡ refusal fault) }
    ensures failed { IfErr result (λ e. e ≡ LogError.NoMemory) }
{
    Ok(format!(in heap; "line 0 refused {}\n", fault.number())?)
}

// The report on a log, unless there is no memory for it.
#[tactic(auto, using(crate::proofs::Counting::each_once))]
pub fn report(heap: Global, input: &[u8]) -> Result<String, LogError>
    ensures text { IfOk result (λ s. Reported input.now (string_bytes s)) }
    ensures failed { IfErr result (λ e. e ≡ LogError.NoMemory) }
    ensures one { OneReport }
    ensures once { EachOnce }
{
    match read_log(heap, input) {
        Ok(readings) => listed(heap, readings.as_slice()),
        Err(LogError::Refused(fault)) => refused(heap, fault),
        Err(error) => Err(error),
    }
}
