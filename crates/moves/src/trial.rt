// A move on trial: a guard over the lent row that takes the move back unless it is kept.
ghost use Rattle.std.specs.Prelude.{◌≡◌, ◌≤◌, true, length, take};
ghost use Rattle.rules.specs.Orders.{is_order};
ghost use Rattle.marks.specs.Numbers.{units_of};
ghost use Rattle.marks.specs.Tied.{tied_units};
ghost use Rattle.yardsticks.specs.Merits.{merit_of};
ghost use Rattle.yardsticks.specs.Totals.{order_of};
ghost use Rattle.moves.specs.Trials.{Better};

use crate::kind::MoveKind;
use marks::marks::Marks;
use marks::rows::keeps;
use marks::ties::Ties;
use yardsticks::total::total;
use yardsticks::yardstick::Yardstick;

// The lent row, which is an order of at most twenty units, and a copy of the order as it was. Fixed memory: twenty places,
// also for fewer units.
pub(crate) struct Trial<'a> {
    row: &'a mut [u8],
    before: [u8; 20],
    ghost most: { length row.now ≤ 20 },
}

impl Drop for Trial<'_> {
    // The order as it was before the trial is put back.
    fn drop(self)
        ensures { self.exit.0.now ≡ take (length self.entry.row.now) self.entry.before }
    {
        let Trial { row, before } = self;
        let units = row.len();
        row.copy_from_slice(&before[..units]);
    }
}

impl<'a> Trial<'a> {
    // Makes a move on trial, on the order in a row.
    pub(crate) fn new<M: MoveKind>(row: &'a mut [u8], number: u32) -> Trial<'a>
        requires size { (2 ≤ length row.old) × (length row.old ≤ 20) }
        requires number { (1 ≤ number) × (number ≤ M.MoveKind.many (length row.old)) }
        ensures lent { result.row.ghost_name ≡ row.entry.ghost_name }
        ensures row { result.row.now ≡ M.MoveKind.moved (length row.old) number row.old }
        ensures before { take (length row.old) result.before ≡ row.old }
    {
        let mut before = [0; 20];
        before[..row.len()].copy_from_slice(row);
        M::make(number, row);
        Trial { row, before }
    }

    // The total of the order on trial, if it keeps the ties and has a greater total than the best so far.
    pub(crate) fn better<Y: Yardstick>(
        &self,
        marks: &Marks,
        ties: &Ties,
        best: Y::Total,
    ) -> Option<Y::Total>
        requires units { tied_units ties.now ≡ units_of marks.now }
        requires order { is_order (units_of marks.now) (order_of marks.now self.now.row.now) ≡ true }
        ensures { Better (merit_of Y.Yardstick) Y.Yardstick.numbers marks.now ties.now (Y.Yardstick.numbers best) (order_of marks.now self.now.row.now) result }
    {
        if !keeps(ties, self.row) {
            return None;
        }
        total::<Y>(marks, self.row).filter(|total| Y::exceeds(*total, best))
    }

    // Ends the trial with the move kept: the pattern takes the guard apart, and its drop does not run.
    pub(crate) fn keep(self)
        ensures { self.exit.0.now ≡ self.entry.row.now }
    {
        let Trial { row: _, before: _ } = self;
    }
}
