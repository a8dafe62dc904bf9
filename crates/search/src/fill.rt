// The tables over sets: for each closed set the greatest total of the remaining steps over all tie-keeping ways to place
// the rest, and how many ways reach it. They are filled from the full set down to the empty one.
ghost use Rattle.std.specs.Prelude.{◌≡◌, ◌+◌, ◌^◌, ◌<◌, ◌≤◌, length, drop};
ghost use Rattle.marks.specs.Numbers.{units_of, numbers_of};
ghost use Rattle.marks.specs.Tied.{tied_of};
ghost use Rattle.yardsticks.specs.Merits.{merit_of};
ghost use Rattle.search.specs.Tables.{Filled};
ghost use Rattle.search.specs.Above.{FilledFrom, Room, CellOf};

use crate::sets::closed;
use crate::tables::{Sheet, Stage, Tables};
use marks::units::Units;
use yardsticks::yardstick::Yardstick;

// The cell of a set: the zero total and 0 for a set that is not closed.
fn cell<Y: Yardstick>(tables: Tables<Y>, placed: u32) -> (Y::Total, u64)
    requires within { placed < 2 ^ units_of tables.sheet.marks.now }
    requires above { FilledFrom Y.Yardstick.numbers (merit_of Y.Yardstick) (numbers_of tables.sheet.marks.now) (tied_of tables.sheet.ties.now) (units_of tables.sheet.marks.now) (placed + 1) tables.totals.now tables.counts.now }
    ensures { CellOf Y.Yardstick.numbers (merit_of Y.Yardstick) tables.entry.sheet.marks.now tables.entry.sheet.ties.now placed result }
{
    if closed(tables.sheet.ties, placed) {
        Stage::<Y> { tables, placed }.cell()
    } else {
        (Y::zero(), 0)
    }
}

// How many sets of units there are.
fn set_count(units: Units) -> usize
    ensures { result ≡ 2 ^ units.count }
{
    1 << units.count
}

// Fills the cells of all sets; cells past them stay.
pub(crate) fn fill<Y: Yardstick>(sheet: Sheet, totals: &mut [Y::Total], counts: &mut [u64])
    requires { Room (units_of sheet.marks.now) totals.old counts.old }
    ensures filled { Filled Y.Yardstick.numbers (merit_of Y.Yardstick) (numbers_of sheet.entry.marks.now) (tied_of sheet.entry.ties.now) (units_of sheet.entry.marks.now) totals.new counts.new }
    ensures totals_past { drop (2 ^ units_of sheet.entry.marks.now) totals.new ≡ drop (2 ^ units_of sheet.entry.marks.now) totals.old }
    ensures counts_past { drop (2 ^ units_of sheet.entry.marks.now) counts.new ≡ drop (2 ^ units_of sheet.entry.marks.now) counts.old }
    ensures lengths { (length totals.new ≡ length totals.old) × (length counts.new ≡ length counts.old) }
{
    // An index, since both lent tables are written at the place of a set, from the full set down.
    for set in (0..set_count(sheet.marks.size())).rev() {
        let tables = Tables::<Y> {
            sheet,
            totals,
            counts,
        };
        let (total, count) = cell(tables, set as u32);
        totals[set] = total;
        counts[set] = count;
    }
}
