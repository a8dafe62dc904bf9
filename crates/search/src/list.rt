// The best orders in label order, read off filled tables.
ghost use Rattle.std.specs.Prelude.{◌≡◌, ◌-◌, ◌<◌, ◌≤◌, true, length};
ghost use Rattle.rules.specs.Units.{label};
ghost use Rattle.rules.specs.Ranking.{total_cell};
ghost use Rattle.marks.specs.Numbers.{units_of, numbers_of};
ghost use Rattle.marks.specs.Tied.{tied_of};
ghost use Rattle.yardsticks.specs.Merits.{merit_of};
ghost use Rattle.search.specs.Tables.{Filled};
ghost use Rattle.search.specs.Listing.{ways_count, ways_with, next_turn, listed_order};

use crate::tables::{Stage, Tables};
use marks::sets::with_unit;
use yardsticks::yardstick::Yardstick;

impl<'a, Y: Yardstick> Stage<'a, Y> {
    // How many of the ways that reach the best total go on with a unit: none if it is not ready or misses that total.
    fn ways_with(&self, best: Y::Total, unit: usize) -> u64
        requires best { Y.Yardstick.numbers best ≡ total_cell (merit_of Y.Yardstick) (numbers_of self.now.tables.sheet.marks.now) (tied_of self.now.tables.sheet.ties.now) (units_of self.now.tables.sheet.marks.now) self.now.placed }
        requires unit { label (units_of self.now.tables.sheet.marks.now) unit ≡ true }
        ensures { result ≡ ways_with (merit_of Y.Yardstick) self.now.tables.sheet.marks.now self.now.tables.sheet.ties.now self.now.placed unit }
    {
        match self.way(unit) {
            Some((total, ways)) if !Y::exceeds(best, total) => ways,
            _ => 0,
        }
    }

    // The unit that comes next in the best way with the number k, from 0, and the number of its rest: the ready units are
    // passed over in label order, with their counts, until k lies in one of them.
    fn next_unit(&self, best: Y::Total, k: u64) -> (usize, u64)
        requires { Y.Yardstick.numbers best ≡ total_cell (merit_of Y.Yardstick) (numbers_of self.now.tables.sheet.marks.now) (tied_of self.now.tables.sheet.ties.now) (units_of self.now.tables.sheet.marks.now) self.now.placed }
        ensures { result ≡ next_turn (merit_of Y.Yardstick) self.now.tables.sheet.marks.now self.now.tables.sheet.ties.now self.now.placed k }
    {
        let mut left = k;
        for unit in 1..=self.tables.sheet.marks.units() {
            let ways = self.ways_with(best, unit);
            if left < ways {
                return (unit, left);
            }
            left -= ways;
        }
        // No unit is left, which the rule writes as 0.
        (0, left)
    }
}

impl<'a, Y: Yardstick> Tables<'a, Y> {
    // Writes the k-th best order in label order, k from 1, over a row of as many places as units.
    pub(crate) fn nth(&self, k: u64, row: &mut [u8])
        requires filled { Filled Y.Yardstick.numbers (merit_of Y.Yardstick) (numbers_of self.now.sheet.marks.now) (tied_of self.now.sheet.ties.now) (units_of self.now.sheet.marks.now) self.now.totals.now self.now.counts.now }
        requires number { (1 ≤ k) × (k ≤ ways_count (merit_of Y.Yardstick) self.now.sheet.marks.now self.now.sheet.ties.now 0) }
        requires places { length row.old ≡ units_of self.now.sheet.marks.now }
        ensures { row.new ≡ listed_order (merit_of Y.Yardstick) self.now.sheet.marks.now self.now.sheet.ties.now (k - 1) }
    {
        let mut placed = 0;
        let mut left = k - 1;
        for place in row.iter_mut() {
            let tables = *self;
            let stage = Stage::<Y> { tables, placed };
            let (unit, rest) = stage.next_unit(self.totals[placed as usize], left);
            *place = unit as u8;
            placed = with_unit(placed, unit);
            left = rest;
        }
    }
}
