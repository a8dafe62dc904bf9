// The tables over sets of a sheet, and what the cells of larger sets say of a closed set.
ghost use Rattle.std.specs.Prelude.{◌≡◌, ◌+◌, ◌^◌, ◌<◌, true, false, MatchOption, IfSome};
ghost use Rattle.rules.specs.Units.{label};
ghost use Rattle.rules.specs.Orders.{closed, ready};
ghost use Rattle.marks.specs.Numbers.{units_of, numbers_of};
ghost use Rattle.marks.specs.Tied.{tied_of};
ghost use Rattle.yardsticks.specs.Merits.{merit_of};
ghost use Rattle.search.specs.Above.{FilledFrom, Sound, Room, CellOf, Led, better};

use crate::sets::ready;
use marks::marks::Marks;
use marks::sets::with_unit;
use marks::ties::Ties;
use std::alloc::AllocError;
use yardsticks::yardstick::Yardstick;

// Marks and ties of the same units, without a circle.
#[derive(Clone, Copy)]
pub(crate) struct Sheet<'a> {
    pub(crate) marks: &'a Marks,
    pub(crate) ties: &'a Ties,
    ghost sound: { Sound marks.now ties.now },
}

// A sheet, and tables that have a cell for each set of its units. Two tables, as callers lend them.
pub(crate) struct Tables<'a, Y: Yardstick> {
    pub(crate) sheet: Sheet<'a>,
    pub(crate) totals: &'a [Y::Total],
    pub(crate) counts: &'a [u64],
    ghost room: { Room (units_of sheet.marks.now) totals.now counts.now },
}

// By hand, since a derive would ask `Y: Copy`.
impl<'a, Y: Yardstick> Copy for Tables<'a, Y> {}

impl<'a, Y: Yardstick> Clone for Tables<'a, Y> {
    fn clone(&self) -> Result<Self, AllocError> {
        Ok(*self)
    }
}

// A closed set, and tables in which the cells of all larger sets are filled.
pub(crate) struct Stage<'a, Y: Yardstick> {
    pub(crate) tables: Tables<'a, Y>,
    pub(crate) placed: u32,
    ghost within: { placed < 2 ^ units_of tables.sheet.marks.now },
    ghost shut: { closed (tied_of tables.sheet.ties.now) (units_of tables.sheet.marks.now) placed ≡ true },
    ghost above: { FilledFrom Y.Yardstick.numbers (merit_of Y.Yardstick) (numbers_of tables.sheet.marks.now) (tied_of tables.sheet.ties.now) (units_of tables.sheet.marks.now) (placed + 1) tables.totals.now tables.counts.now },
}

// By hand, as for `Tables`.
impl<'a, Y: Yardstick> Copy for Stage<'a, Y> {}

impl<'a, Y: Yardstick> Clone for Stage<'a, Y> {
    fn clone(&self) -> Result<Self, AllocError> {
        Ok(*self)
    }
}

// The better of what was found so far and one way on: of equal totals the counts add up.
fn better<Y: Yardstick>(found: Option<(Y::Total, u64)>, way: (Y::Total, u64)) -> (Y::Total, u64)
    requires { IfSome found (λ v. v.1 + way.1 < 2 ^ 64) }
    ensures { result ≡ better (λ s t. Y.Yardstick.exceeds (Y.Yardstick.numbers s) (Y.Yardstick.numbers t)) found way }
{
    let (total, more) = way;
    let Some((best, count)) = found else {
        return (total, more);
    };
    if Y::exceeds(total, best) {
        (total, more)
    } else if Y::exceeds(best, total) {
        (best, count)
    } else {
        (best, count + more)
    }
}

impl<'a, Y: Yardstick> Stage<'a, Y> {
    // The total that is reached with a unit next, and in how many ways; none if the unit may not come next.
    pub(crate) fn way(&self, unit: usize) -> Option<(Y::Total, u64)>
        requires { label (units_of self.now.tables.sheet.marks.now) unit ≡ true }
        ensures { MatchOption result (ready (tied_of self.now.tables.sheet.ties.now) (units_of self.now.tables.sheet.marks.now) self.now.placed unit ≡ false) (Led Y.Yardstick.numbers (merit_of Y.Yardstick) self.now.tables.sheet.marks.now self.now.tables.sheet.ties.now self.now.placed unit) }
    {
        let Tables {
            sheet,
            totals,
            counts,
        } = self.tables;
        if !ready(sheet.ties, self.placed, unit) {
            return None;
        }
        let larger = with_unit(self.placed, unit) as usize;
        let step = Y::step(sheet.marks, self.placed, unit);
        let total = Y::add(step, totals[larger]);
        Some((total, counts[larger]))
    }

    // The cell of the set: the greatest total that is reached, and in how many ways.
    pub(crate) fn cell(&self) -> (Y::Total, u64)
        ensures { CellOf Y.Yardstick.numbers (merit_of Y.Yardstick) self.now.tables.sheet.marks.now self.now.tables.sheet.ties.now self.now.placed result }
    {
        let mut found = None;
        for unit in 1..=self.tables.sheet.marks.units() {
            if let Some(way) = self.way(unit) {
                found = Some(better::<Y>(found, way));
            }
        }
        found.unwrap_or((Y::zero(), 1))
    }
}
