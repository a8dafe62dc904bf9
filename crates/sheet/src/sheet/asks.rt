// The calls that answer from the marks.
ghost use Rattle.std.specs.Prelude.{◌≡◌};
ghost use Rattle.rules.specs.Calls.{gap_tests, row_tests};
ghost use Rattle.yardsticks.specs.Merits.{merit_of};
ghost use Rattle.sheet.specs.Contents.{contents};
ghost use Rattle.sheet.specs.Measured.{Tested};
ghost use Rattle.moves.specs.Kinds.{moves_of};
ghost use Rattle.sheet.specs.Answers.{Ranks, Scores, Scales, Checks, Improves, in_numbers, rank_reply, score_reply, scale_reply, check_reply, improve_reply};

use super::Sheet;
use crate::faults::AnswerFault;
use marks::marks::Marks;
use marks::rows::{is_order, keeps};
use moves::improve::{Improvement, improve};
use moves::kind::MoveKind;
use scaling::comparisons::comparisons;
use scaling::coordinates::coordinates;
use search::best::{best, lacks_room};
use yardsticks::total::total;
use yardsticks::yardstick::Yardstick;

impl Sheet {
    // The marks as numbers, unless a pair is a gap.
    fn measured(&self) -> Result<Marks, AnswerFault>
        ensures { Tested self.now (gap_tests (contents self.now)) result }
    {
        if let Some((a, b)) = self.cells.first_gap(self.units.count) {
            return Err(AnswerFault::Gap(a, b));
        }
        Ok(self.cells.measured(self.units))
    }

    // The same, unless the row's first labels are no order.
    fn ordered(&self, row: &[u8]) -> Result<Marks, AnswerFault>
        ensures { Tested self.now (row_tests (contents self.now) row.now) result }
    {
        let units = self.units.count;
        if row.len() < units {
            return Err(AnswerFault::Short);
        }
        if !is_order(row, units) {
            return Err(AnswerFault::NoRow);
        }
        self.measured()
    }

    // The greatest total of a tie-keeping order and how many orders reach it, and in the row the k-th of them in label
    // order, k from 1. The tables need a cell for each set of units.
    pub fn rank<Y: Yardstick>(
        &self,
        k: u64,
        totals: &mut [Y::Total],
        counts: &mut [u64],
        row: &mut [u8],
    ) -> Result<(Y::Total, u64), AnswerFault>
        ensures { Ranks (contents self.now) (merit_of Y.Yardstick) k (in_numbers Y.Yardstick.numbers (record { totals = totals.old; counts = counts.old; row = row.old })) (rank_reply Y.Yardstick.numbers self.now.units.count row.new result) (in_numbers Y.Yardstick.numbers (record { totals = totals.new; counts = counts.new; row = row.new })) }
    {
        if lacks_room(self.units.count, totals.len(), counts.len(), row.len()) {
            return Err(AnswerFault::Short);
        }
        let marks = self.measured()?;
        Ok(best::<Y>(&marks, &self.ties, k, totals, counts, row)?)
    }

    // The total of the order in a row.
    pub fn score<Y: Yardstick>(&self, row: &[u8]) -> Result<Y::Total, AnswerFault>
        ensures { Scores (contents self.now) (merit_of Y.Yardstick) row.now (score_reply Y.Yardstick.numbers result) }
    {
        let marks = self.ordered(row)?;
        if !keeps(&self.ties, row) {
            return Err(AnswerFault::Against);
        }
        Ok(total::<Y>(&marks, row).unwrap())
    }

    // Writes the displacement of each unit of the order in a row, after the units before it, into a list, and answers the
    // loss in n-ths.
    pub fn scale(&self, row: &[u8], list: &mut [i64]) -> Result<i64, AnswerFault>
        ensures { Scales (contents self.now) row.now list.old (scale_reply self.now.units.count list.new result) list.new }
    {
        if list.len() < self.units.count {
            return Err(AnswerFault::Short);
        }
        let marks = self.ordered(row)?;
        Ok(coordinates(&marks, row, list).unwrap())
    }

    // How many comparisons of the anti-Robinson pattern the order in a row keeps, and how many it breaks.
    pub fn check(&self, row: &[u8]) -> Result<(u32, u32), AnswerFault>
        ensures { Checks (contents self.now) row.now (check_reply result) }
    {
        let marks = self.ordered(row)?;
        let (kept, broken) = comparisons(&marks, row).unwrap();
        Ok((kept, broken))
    }

    // Makes the first move that gives a tie-keeping order of greater total, again and again, until there is none or the
    // limit is reached.
    pub fn improve<M: MoveKind, Y: Yardstick>(
        &self,
        limit: u32,
        row: &mut [u8],
    ) -> Result<Improvement<Y::Total>, AnswerFault>
        ensures { Improves (contents self.now) (moves_of M.MoveKind) (merit_of Y.Yardstick) limit row.old (improve_reply Y.Yardstick.numbers self.now.units.count row.new result) row.new }
    {
        let marks = self.ordered(row)?;
        Ok(improve::<M, Y>(&marks, &self.ties, limit, row)?)
    }
}
