// Coordinates along a line in n-ths, and their loss in n-ths.
ghost use Rattle.std.specs.Prelude.{◌≡◌, ◌+◌, ◌*◌, ◌<◌, ◌≤◌, true, ◌++◌, length, drop, pos, sum_by, ◌-ℤ◌, ◌*ℤ◌, ◌-◌};
ghost use Rattle.rules.specs.Units.{labels, sum_ℤ};
ghost use Rattle.rules.specs.Sheets.{pairs_in};
ghost use Rattle.rules.specs.Orders.{is_order};
ghost use Rattle.rules.specs.Scaling.{square, displacements};
ghost use Rattle.marks.specs.Numbers.{units_of, numbers_of};
ghost use Rattle.scaling.specs.Scaled.{Scales};

use marks::marks::Marks;
use marks::sets::with_unit;
use marks::units::Units;

// The square of a number that is not above 200,000.
fn squared(x: u64) -> u64
    requires { x ≤ 200000 }
    ensures { result ≡ x * x }
{
    x * x
}

// The square of the mark of two units.
fn squared_mark(marks: &Marks, a: usize, b: usize) -> u64
    ensures { result ≡ numbers_of marks.now a b * numbers_of marks.now a b }
{
    squared(u64::from(marks.mark(a, b)))
}

// The sum of the squared marks of a unit and each unit before it in label order.
fn squares_before(marks: &Marks, unit: usize) -> u64
    requires { unit ≤ 20 }
    ensures { result ≡ sum_by (λ a. numbers_of marks.now a unit * numbers_of marks.now a unit) (labels (unit - 1)) }
{
    (1..unit)
        .map(|before| squared_mark(marks, before, unit))
        .sum()
}

// The sum of the squared marks of all pairs.
fn squared_marks(marks: &Marks) -> u64
    ensures value { pos result ≡ sum_ℤ (λ q. square (pos (numbers_of marks.now q.0 q.1))) (pairs_in (labels (units_of marks.now))) }
    ensures low { result ≤ 40000000000 }
{
    (1..=marks.units())
        .map(|unit| squares_before(marks, unit))
        .sum()
}

// Writes the displacement of each unit of an order after the units before it, at the start of a list, and answers the sum of
// their squares.
fn displace(marks: &Marks, order: &[u8], list: &mut [i64]) -> u64
    requires order { is_order (units_of marks.now) order.now ≡ true }
    requires room { units_of marks.now ≤ length list.old }
    ensures list { list.new ≡ displacements (numbers_of marks.now) (units_of marks.now) 0 order.now ++ drop (units_of marks.now) list.old }
    ensures squares { pos result ≡ sum_ℤ square (displacements (numbers_of marks.now) (units_of marks.now) 0 order.now) }
    ensures low { result ≤ 800000000000 }
{
    let mut placed = 0;
    let mut squares = 0;
    // By index, since no fact tells what a list holds after a zip with its `iter_mut`.
    for (i, label) in order.iter().enumerate() {
        let unit = usize::from(*label);
        let far = marks.displacement(placed, unit);
        list[i] = far;
        squares += squared(far.unsigned_abs());
        placed = with_unit(placed, unit);
    }
    squares
}

// So many times one sum of squares, minus another.
fn difference(units: Units, marks: u64, displaced: u64) -> i64
    requires marks { marks ≤ 40000000000 }
    requires displaced { displaced ≤ 800000000000 }
    ensures { result ≡ (pos units.count *ℤ pos marks) -ℤ pos displaced }
{
    (units.count as u64 * marks) as i64 - displaced as i64
}

// The coordinates in n-ths of the order that a row begins with, of as many labels as there are units: writes the displacement
// of each unit after the units before it at the start of a list, and answers the loss in n-ths. None, and the list as it was,
// if the list has fewer places than units or the labels are no order.
pub fn coordinates(marks: &Marks, row: &[u8], list: &mut [i64]) -> Option<i64>
    ensures { Scales marks.now row.now list.old list.new result }
{
    if list.len() < marks.units() {
        return None;
    }
    let order = marks.order_in(row)?;
    let displaced = displace(marks, order, list);
    Some(difference(marks.size(), squared_marks(marks), displaced))
}
