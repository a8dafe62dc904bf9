// The total of an order under any yardstick.
ghost use Rattle.std.specs.Prelude.{◌≡◌, true, false, [], ◌∷◌, pos, MatchOption};
ghost use Rattle.rules.specs.Orders.{is_order};
ghost use Rattle.rules.specs.Yardsticks.{spread, gradient, target};
ghost use Rattle.marks.specs.Numbers.{units_of};
ghost use Rattle.yardsticks.specs.Members.{AsRuled};
ghost use Rattle.yardsticks.specs.Merits.{merit_of};
ghost use Rattle.yardsticks.specs.Totals.{order_of, total_of, Totals};

use crate::gradient::{Grades, Gradient};
use crate::spread::Spread;
use crate::target::Target;
use crate::yardstick::Yardstick;
use marks::marks::Marks;
use marks::sets::with_unit;

// The total of an order.
fn sum<Y: Yardstick>(marks: &Marks, order: &[u8]) -> Y::Total
    requires { is_order (units_of marks.now) order.now ≡ true }
    ensures { Y.Yardstick.numbers result ≡ total_of (merit_of Y.Yardstick) marks.now order.now }
{
    let mut placed = 0;
    let mut sum = Y::zero();
    for label in order {
        let unit = *label as usize;
        sum = Y::add(sum, Y::step(marks, placed, unit));
        placed = with_unit(placed, unit);
    }
    sum
}

// The total of the order that a row begins with: of as many labels as there are units. None unless they are an order.
pub fn total<Y: Yardstick>(marks: &Marks, row: &[u8]) -> Option<Y::Total>
    ensures { Totals (merit_of Y.Yardstick) Y.Yardstick.numbers marks.now row.now result }
{
    let order = marks.order_in(row)?;
    Some(sum::<Y>(marks, order))
}

// The same for spread, gradient and target, each with the rulebook's yardstick in its contract, for callers that quote it.
pub fn spread_total(marks: &Marks, row: &[u8]) -> Option<u64>
    ensures { Totals spread (λ t. pos t ∷ []) marks.now row.now result }
{
    total::<Spread>(marks, row)
}

pub fn gradient_total(marks: &Marks, row: &[u8]) -> Option<Grades>
    ensures { Totals gradient (λ t. t.signs ∷ t.rises ∷ []) marks.now row.now result }
{
    total::<Gradient>(marks, row)
}

pub fn target_total(marks: &Marks, row: &[u8]) -> Option<i64>
    ensures { Totals target (λ t. t ∷ []) marks.now row.now result }
{
    total::<Target>(marks, row)
}

// Caps, adding, comparing and steps of the three are those of the rulebook, and the numbers of their totals are these.
pub fn members_as_ruled()
    ensures { AsRuled }
{}
