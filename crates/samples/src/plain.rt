// The total of an order straight from the marks of its units, with no steps and no sets.
ghost use Rattle.std.specs.Prelude.{◌*◌, ◌<◌, ◌≤◌, length, unsigned_abs};

use crate::rows::Row;
use marks::marks::Marks;
use std::cmp::Ordering;
use yardsticks::gradient::{Grades, Gradient};
use yardsticks::spread::Spread;
use yardsticks::target::Target;
use yardsticks::yardstick::Yardstick;

// A yardstick with a plain way to the same totals.
pub trait Plain: Yardstick<Total: Ord> {
    // The total of the order in a row's first places.
    fn plain_total(marks: &Marks, row: &Row) -> Self::Total;
}

// The mark of two units.
fn mark(marks: &Marks, a: u8, b: u8) -> u16 {
    marks.mark(usize::from(a), usize::from(b))
}

// The marks of the unit at a place to the units before it, minus its marks to those after it. A bound of twenty in three
// places, since a type of short slices would be longer.
fn displacement(marks: &Marks, order: &[u8], place: usize) -> i64
    requires { (length order.now ≤ 20) × (place < length order.now) }
    ensures { unsigned_abs result ≤ 65535 * 20 }
{
    let mut sum = 0;
    for (i, &other) in order.iter().enumerate() {
        let mark = i64::from(mark(marks, order[place], other));
        match i.cmp(&place) {
            Ordering::Less => sum += mark,
            Ordering::Equal => {}
            Ordering::Greater => sum -= mark,
        }
    }
    sum
}

impl Plain for Spread {
    fn plain_total(marks: &Marks, row: &Row) -> u64 {
        let order = &row[..marks.units()];
        let mut sum = 0;
        // Place numbers, since a displacement is that of a place.
        for place in 0..order.len() {
            let far = displacement(marks, order, place).unsigned_abs();
            sum += far * far;
        }
        sum
    }
}

// A displacement times a place number.
fn weighed(far: i64, place: usize) -> i64
    requires { (unsigned_abs far ≤ 65535 * 20) × (place < 20) }
    ensures { unsigned_abs result ≤ 65535 * 20 * 20 }
{
    far * place as i64
}

impl Plain for Target {
    fn plain_total(marks: &Marks, row: &Row) -> i64 {
        let order = &row[..marks.units()];
        let mut sum = 0;
        // Place numbers, since the rule multiplies by them.
        for place in 0..order.len() {
            sum += weighed(displacement(marks, order, place), place);
        }
        sum
    }
}

// How far the outer mark of three units in row order is above the two inner ones, and the signs of that.
fn graded(outer: u16, left: u16, right: u16) -> Grades
    ensures { (unsigned_abs result.signs ≤ 2) × (unsigned_abs result.rises ≤ 2 * 65535) }
{
    let first = i32::from(outer) - i32::from(left);
    let second = i32::from(outer) - i32::from(right);
    Grades {
        signs: first.signum() + second.signum(),
        rises: first + second,
    }
}

// What two units add with those that stand between them.
fn between(marks: &Marks, first: u8, middles: &[u8], last: u8) -> Grades
    requires { length middles.now ≤ 20 }
    ensures { (unsigned_abs result.signs ≤ 2 * 20) × (unsigned_abs result.rises ≤ 2 * 65535 * 20) }
{
    let outer = mark(marks, first, last);
    let mut sum = Grades::NONE;
    for &middle in middles {
        sum = sum + graded(outer, mark(marks, first, middle), mark(marks, middle, last));
    }
    sum
}

// What a unit adds with each two that stand before it.
fn up_to(marks: &Marks, earlier: &[u8], last: u8) -> Grades
    requires { length earlier.now ≤ 20 }
    ensures { (unsigned_abs result.signs ≤ 2 * 20 * 20) × (unsigned_abs result.rises ≤ 2 * 65535 * 20 * 20) }
{
    let mut sum = Grades::NONE;
    for (i, &first) in earlier.iter().enumerate() {
        sum = sum + between(marks, first, &earlier[i + 1..], last);
    }
    sum
}

impl Plain for Gradient {
    fn plain_total(marks: &Marks, row: &Row) -> Grades {
        let order = &row[..marks.units()];
        let mut sum = Grades::NONE;
        for (i, &last) in order.iter().enumerate() {
            sum = sum + up_to(marks, &order[..i], last);
        }
        sum
    }
}
