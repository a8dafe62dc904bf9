// The greatest total, how many tie-keeping orders reach it, and any of them by its number in label order.
ghost use Rattle.std.specs.Prelude.{◌≡◌, ◌||◌, Some, nat_lt};
ghost use Rattle.yardsticks.specs.Merits.{merit_of};
ghost use Rattle.search.specs.Faults.{fault_name};
ghost use Rattle.search.specs.Best.{short, numbered, Admits, Searches};

use crate::circle::has_order;
use crate::fill::fill;
use crate::tables::{Sheet, Tables};
use marks::marks::Marks;
use marks::ties::Ties;
use std::error::Error;
use std::fmt;
use yardsticks::yardstick::Yardstick;

// Why there is no answer.
#[derive(Clone, Copy, PartialEq, Eq, Debug)]
pub enum SearchFault {
    // marks and ties are of different numbers of units
    Units,
    // a table has fewer cells than there are sets, or the row fewer places than units
    Short,
    // no order keeps the ties
    Circle,
    // no best order has the number
    Number,
}

impl fmt::Display for SearchFault {
    ghost output = { λ f. Some (fault_name f) };

    fn fmt<W: fmt::Write>(&self, f: &mut fmt::Formatter<W>) -> fmt::Result {
        f.write_str(match self {
            SearchFault::Units => "Units",
            SearchFault::Short => "Short",
            SearchFault::Circle => "Circle",
            SearchFault::Number => "Number",
        })
    }
}

impl Error for SearchFault {}

// Whether tables have fewer cells than there are sets of units, or a row fewer places than units; nothing is enough for
// more than 20.
pub fn lacks_room(units: usize, totals: usize, counts: usize, row: usize) -> bool
    ensures { result ≡ (nat_lt 20 units || short units totals counts row) }
{
    if units > 20 {
        return true;
    }
    // Not by `set_count`, since any number up to 20 is answered, also 0 and 1.
    let sets = 1 << units;
    totals < sets || counts < sets || row < units
}

// Whether k is a number from 1 to the count.
fn is_numbered(count: u64, k: u64) -> bool
    ensures { result ≡ numbered count k }
{
    (1..=count).contains(&k)
}

// The sheet of marks and ties; none unless they are of the same units, the room is enough and there is no circle.
fn sheet_of<'a>(
    marks: &'a Marks,
    ties: &'a Ties,
    totals: usize,
    counts: usize,
    row: usize,
) -> Result<Sheet<'a>, SearchFault>
    ensures { Admits marks.now ties.now totals counts row result }
{
    if ties.units() != marks.units() {
        return Err(SearchFault::Units);
    }
    if lacks_room(marks.units(), totals, counts, row) {
        return Err(SearchFault::Short);
    }
    if !has_order(ties) {
        return Err(SearchFault::Circle);
    }
    Ok(Sheet { marks, ties })
}

// Answers the greatest total and the count, and writes the k-th best order, k from 1, at the start of the row. The tables
// need a cell for each set of units. A refusal changes nothing; but if only the number is wrong, the tables are filled.
pub fn best<Y: Yardstick>(
    marks: &Marks,
    ties: &Ties,
    k: u64,
    totals: &mut [Y::Total],
    counts: &mut [u64],
    row: &mut [u8],
) -> Result<(Y::Total, u64), SearchFault>
    ensures { Searches Y.Yardstick.numbers (merit_of Y.Yardstick) marks.now ties.now k (record { totals = totals.old; counts = counts.old; row = row.old }) (record { totals = totals.new; counts = counts.new; row = row.new }) result }
{
    let sheet = sheet_of(marks, ties, totals.len(), counts.len(), row.len())?;
    fill::<Y>(sheet, totals, counts);
    let count = counts[0];
    if !is_numbered(count, k) {
        return Err(SearchFault::Number);
    }
    let tables = Tables::<Y> {
        sheet,
        totals,
        counts,
    };
    tables.nth(k, &mut row[..sheet.marks.units()]);
    Ok((totals[0], count))
}
