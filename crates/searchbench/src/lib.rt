// The search by spread and by gradient, exported for the benchmark in bench/.
#![tactic(auto)]

use marks::marks::Marks;
use marks::ties::Ties;
use marks::units::Units;
use search::best::best;
use std::alloc::Global;
use yardsticks::gradient::{Grades, Gradient};
use yardsticks::spread::Spread;
use yardsticks::yardstick::Yardstick;

// The marks of a sheet, from the rows of a square table one after another; pairs that are missing are 0.
fn sheet(units: Units, table: &[u16]) -> Marks {
    let mut marks = Marks::blank(units);
    for (i, row) in table.chunks(32).enumerate() {
        for (j, mark) in row.iter().enumerate().skip(i + 1) {
            let _ = marks.put(i + 1, j + 1, *mark);
        }
    }
    marks
}

// Fills both tables and writes the first best order; answers the count, and 0 for a refusal, as C reads it.
fn searched<Y: Yardstick>(
    units: Units,
    table: &[u16],
    totals: &mut [Y::Total],
    counts: &mut [u64],
    row: &mut [u8],
) -> u64 {
    let marks = sheet(units, table);
    let ties = Ties::none(units);
    match best::<Y>(&marks, &ties, 1, totals, counts, row) {
        Ok((_, count)) => count,
        Err(_) => 0,
    }
}

// The search by spread.
#[unsafe(no_mangle)]
pub extern "C" fn searched_by_spread(
    units: usize,
    table: &[u16],
    totals: &mut [u64],
    counts: &mut [u64],
    row: &mut [u8],
) -> u64 {
    match Units::new(units as u64) {
        Some(units) => searched::<Spread>(units, table, totals, counts, row),
        None => 0,
    }
}

// The search by gradient, over a table of totals of its own.
#[unsafe(no_mangle)]
pub extern "C" fn searched_by_gradient(
    heap: Global,
    units: usize,
    table: &[u16],
    counts: &mut [u64],
    row: &mut [u8],
) -> u64 {
    let Some(units) = Units::new(units as u64) else {
        return 0;
    };
    let Ok(mut totals) = Vec::from_elem(heap, Grades::NONE, counts.len()) else {
        return 0;
    };
    searched::<Gradient>(units, table, totals.as_mut_slice(), counts, row)
}
