// Compares the search over sets with a plain search of all orders, on pseudo-random sheets of 2 to 8 units, and asks it
// for the orders of twenty units.
#![tactic(auto)]

use anyhow::Context;
use compare::{Tally, compare_sheet};
use samples::numbers::Numbers;
use samples::sheets::draw;
use twenty::show_twenty;

mod asked;
mod compare;
mod plain;
mod twenty;

// How many sheets are drawn for a number of units.
fn sheet_count(units: u64) -> u64 {
    match units {
        ..=6 => 100,
        7 => 60,
        _ => 24,
    }
}

// Compares all sheets of some units, and prints how many they were. Answers how many disagreements there were.
fn compare_units(rt: &HostRuntime, numbers: &mut Numbers, units: u64) -> anyhow::Result<u64> {
    let mut tally = Tally::default();
    for _ in 0..sheet_count(units) {
        let sheet = draw(numbers, units).context("no such sheet")?;
        compare_sheet(rt.alloc(), &sheet, &mut tally)?;
    }
    let Tally {
        sheets,
        circles,
        orders,
        disagreements,
    } = tally;
    println!(rt;
        "{units} units: {sheets} sheets, {circles} with a circle, {orders} listed orders compared",
    )?;
    Ok(disagreements)
}

// Compares the sheets of all sizes, then shows the twenty units.
fn run(rt: &HostRuntime) -> anyhow::Result<()> {
    let mut numbers = Numbers::new(20);
    let mut disagreements = 0u64;
    for units in 2..=8 {
        let more = compare_units(rt, &mut numbers, units)?;
        disagreements = disagreements.saturating_add(more);
    }
    println!(rt; "disagreements: {disagreements}")?;
    show_twenty(rt)
}

fn main(rt: HostRuntime) -> anyhow::Result<()> {
    run(&rt)
}
