// The comparisons of the anti-Robinson pattern: two for each three units in row order.
ghost use Rattle.std.specs.Prelude.{◌≡◌, ◌-◌, ◌*◌, ◌/◌, ◌≤◌, true, length, MatchOption};
ghost use Rattle.rules.specs.Units.{sum_over};
ghost use Rattle.rules.specs.Pattern.{kept_at, triples_at, triples_from, kept};
ghost use Rattle.marks.specs.Numbers.{units_of, numbers_of};
ghost use Rattle.scaling.specs.Compared.{Compares};

use marks::marks::Marks;
use marks::units::Units;

// Units in row order, at most twenty, with the marks that compare them.
#[derive(Clone, Copy)]
struct Row<'a> {
    marks: &'a Marks,
    labels: &'a [u8],
    ghost few: { length labels.now ≤ 20 },
}

// How many of the two comparisons of three units hold: the first and middle, and the middle and last unit have no greater
// mark than the first and last.
fn kept_at(marks: &Marks, first: u8, middle: u8, last: u8) -> u32
    ensures value { result ≡ kept_at (numbers_of marks.now) (record { first = first; middle = middle; last = last }) }
    ensures few { result ≤ 2 }
{
    let (first, middle, last) = (usize::from(first), usize::from(middle), usize::from(last));
    let outer = marks.mark(first, last);
    u32::from(marks.mark(first, middle) <= outer) + u32::from(marks.mark(middle, last) <= outer)
}

impl<'a> Row<'a> {
    // How many comparisons of two units with each of these hold.
    fn kept_with(self, first: u8, middle: u8) -> u32
        ensures value { result ≡ sum_over (kept_at (numbers_of self.entry.marks.now)) (triples_at first middle self.entry.labels.now) }
        ensures few { result ≤ 2 * length self.entry.labels.now }
    {
        self.labels
            .iter()
            .map(|last| kept_at(self.marks, first, middle, *last))
            .sum()
    }

    // How many comparisons of a unit with each two of these hold.
    fn kept_from(self, first: u8) -> u32
        ensures value { result ≡ sum_over (kept_at (numbers_of self.entry.marks.now)) (triples_from first self.entry.labels.now) }
        ensures few { result ≤ 40 * length self.entry.labels.now }
    {
        match self.labels {
            [] => 0,
            [middle, rest @ ..] => {
                let rest = Row {
                    marks: self.marks,
                    labels: rest,
                };
                rest.kept_with(first, *middle) + rest.kept_from(first)
            }
        }
    }

    // How many comparisons of these hold. The rule, as above, is a recursion over the front of the row; one function for both
    // would take a closure and be no shorter.
    fn kept(self) -> u32
        ensures value { result ≡ kept (numbers_of self.entry.marks.now) self.entry.labels.now }
        ensures few { result ≤ 800 * length self.entry.labels.now }
    {
        match self.labels {
            [] => 0,
            [first, rest @ ..] => {
                let rest = Row {
                    marks: self.marks,
                    labels: rest,
                };
                rest.kept_from(*first) + rest.kept()
            }
        }
    }
}

// How many comparisons an order has.
fn all_comparisons(units: Units) -> u32
    ensures { result ≡ units.count * (units.count - 1) * (units.count - 2) / 3 }
{
    let n = units.count as u32;
    n * (n - 1) * (n - 2) / 3
}

// How many comparisons hold and how many fail, of the order that a row begins with: of as many labels as there are units.
// None unless they are an order. What fails is counted as the rest of all comparisons.
pub fn comparisons(marks: &Marks, row: &[u8]) -> Option<(u32, u32)>
    ensures { Compares marks.now row.now result }
{
    let labels = marks.order_in(row)?;
    let kept = Row { marks, labels }.kept();
    Some((kept, all_comparisons(marks.size()) - kept))
}
