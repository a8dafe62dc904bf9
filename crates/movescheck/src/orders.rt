// Pseudo-random orders of a sheet.
use samples::numbers::Numbers;
use samples::rows::{Row, first_row, keeps_ties};
use samples::sheets::Sheet;

// So many orders are drawn to find one that keeps the ties.
const TRIES: u32 = 200;

// Puts some units into a pseudo-random order. An index, since two places are exchanged.
fn shuffle(numbers: &mut Numbers, units: &mut [u8]) {
    for i in 1..units.len() {
        let other = numbers.below(i as u64 + 1) as usize;
        units.swap(i, other);
    }
}

fn draw_order(numbers: &mut Numbers, sheet: &Sheet) -> Row {
    let units = sheet.marks.size().count;
    let mut row = first_row(units);
    shuffle(numbers, &mut row[..units]);
    row
}

// An order that keeps the ties, or, where none is found, the last one drawn.
pub fn draw_row(numbers: &mut Numbers, sheet: &Sheet) -> Row {
    let mut row = draw_order(numbers, sheet);
    for _ in 0..TRIES {
        if keeps_ties(&sheet.ties, &row[..sheet.marks.units()]) {
            break;
        }
        row = draw_order(numbers, sheet);
    }
    row
}
