// Compares improving with a plain version of it, on pseudo-random sheets of 2 to 8 units, by both kinds of move and all
// three yardsticks.
#![tactic(auto)]

use anyhow::Context;
use compare::{Tally, compare_sheet};
use samples::numbers::Numbers;
use samples::sheets::draw;

mod compare;
mod orders;
mod plain;

// How many sheets are drawn for a number of units.
const SHEETS: u64 = 60;

// Compares all sheets of some units, and prints how many they were. Answers how many disagreements there were.
fn compare_units(rt: &HostRuntime, numbers: &mut Numbers, units: u64) -> anyhow::Result<u64> {
    let mut tally = Tally::default();
    for _ in 0..SHEETS {
        let sheet = draw(numbers, units).context("no such sheet")?;
        compare_sheet(numbers, &sheet, &mut tally);
    }
    let Tally {
        calls,
        made,
        settled,
        against,
        disagreements,
    } = tally;
    println!(rt;
        "{units} units: {calls} calls compared, {made} moves made, {settled} settled, {against} against the ties",
    )?;
    Ok(disagreements)
}

fn run(rt: &HostRuntime) -> anyhow::Result<()> {
    let mut numbers = Numbers::new(7);
    let mut disagreements = 0u64;
    for units in 2..=8 {
        let more = compare_units(rt, &mut numbers, units)?;
        disagreements = disagreements.saturating_add(more);
    }
    println!(rt; "disagreements: {disagreements}")?;
    Ok(())
}

fn main(rt: HostRuntime) -> anyhow::Result<()> {
    run(&rt)
}
