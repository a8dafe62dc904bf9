// Gradient: for each unit before and each unit after the one that is placed, whether their mark is above its marks to
// them, and by how much.
ghost use Rattle.std.specs.Prelude.{◌≡◌, [], ◌∷◌, pos, ◌+ℤ◌, ◌-ℤ◌, Some, FitsSigned};
ghost use Rattle.std.specs.Int.{w32};
ghost use Rattle.rules.specs.Units.{labels, sum_ℤ};
ghost use Rattle.rules.specs.Yardsticks.{gradient};
ghost use Rattle.marks.specs.Numbers.{units_of, numbers_of};
ghost use Rattle.yardsticks.specs.Gradients.{RowOf, Graded, signs_of, rises_of, at, later, beyond, past, behind};
ghost use Rattle.yardsticks.specs.Printed.{written};
ghost use Rattle.rules.proofs.Lawfulness.{yardsticks_lawful};
ghost use Rattle.std.proofs.Common.{rules};

use crate::yardstick::Yardstick;
use marks::marks::Marks;
use marks::sets::has;
use std::fmt;
use std::ops::Add;

// The numbers of a gradient total: signs, and differences of marks. Totals are compared by signs, then by rises.
#[derive(Clone, Copy, Debug, PartialEq, Eq, PartialOrd, Ord)]
pub struct Grades {
    pub signs: i32,
    pub rises: i32,
}

impl Grades {
    // 0 in both numbers.
    pub const NONE: Grades = Grades { signs: 0, rises: 0 };
}

impl Add for Grades {
    type Output = Grades;

    ghost can_add = { λ s t. FitsSigned w32 (s.signs +ℤ t.signs) × FitsSigned w32 (s.rises +ℤ t.rises) };

    ghost add_gives = { λ s t r. (r.signs ≡ s.signs +ℤ t.signs) × (r.rises ≡ s.rises +ℤ t.rises) };

    fn add(self, more: Grades) -> Grades {
        Grades {
            signs: self.signs + more.signs,
            rises: self.rises + more.rises,
        }
    }
}

// The signs, a comma and the rises.
impl fmt::Display for Grades {
    ghost output = { λ t. Some (written t) };

    fn fmt<W: fmt::Write>(&self, f: &mut fmt::Formatter<W>) -> fmt::Result {
        let Grades { signs, rises } = *self;
        write!(f, "{signs},{rises}")
    }
}

// What one mark is above another.
fn rise(outer: u16, inner: u16) -> i32
    ensures { result ≡ pos outer -ℤ pos inner }
{
    i32::from(outer) - i32::from(inner)
}

// What the marks of an earlier and a later unit, of the earlier one and this one, and of this one and the later one add.
fn compared(outer: u16, left: u16, right: u16) -> Grades
    ensures { Graded (λ f. f outer left right) result }
{
    let first = rise(outer, left);
    let second = rise(outer, right);
    Grades {
        signs: first.signum() + second.signum(),
        rises: first + second,
    }
}

// The marks of a unit, one for each label.
fn row_of(marks: &Marks, unit: usize) -> [u16; 20]
    ensures { RowOf marks.now unit result }
{
    let mut row = [0; 20];
    for (k, mark) in row[..marks.units()].iter_mut().enumerate() {
        *mark = marks.mark(unit, k + 1);
    }
    row
}

// A unit that is placed after a set. Its marks are copied into a row, which is read without a test of labels; the row is
// an array of the most units, since the library has no heap.
#[derive(Drop)]
struct Placing<'a> {
    marks: &'a Marks,
    placed: u32,
    unit: usize,
    row: [u16; 20],
    ghost row_is: { RowOf marks.now unit row },
}

impl Placing<'_> {
    // Whether k comes later: it is not placed, and is other than the unit that is placed now.
    fn comes_later(&self, k: usize) -> bool
        ensures { result ≡ later self.now.placed self.now.unit k }
    {
        !has(self.placed, k) && k != self.unit
    }

    // What all later units add for the earlier unit i, whose mark to the unit is `left`.
    fn past(&self, i: usize, left: u16) -> Grades
        requires { left ≡ numbers_of self.now.marks.now self.now.unit i }
        ensures { Graded (λ f. past (at f (numbers_of self.now.marks.now) self.now.unit i) (units_of self.now.marks.now) self.now.placed self.now.unit) result }
    {
        let mut sum = Grades::NONE;
        for (k, right) in self.row[..self.marks.units()].iter().enumerate() {
            if self.comes_later(k + 1) {
                sum = sum + compared(self.marks.mark(i, k + 1), left, *right);
            }
        }
        sum
    }

    // What all earlier units add.
    fn step(&self) -> Grades
        ensures { Graded (λ f. sum_ℤ (behind (at f (numbers_of self.now.marks.now) self.now.unit) (units_of self.now.marks.now) self.now.placed self.now.unit) (labels (units_of self.now.marks.now))) result }
    {
        let mut sum = Grades::NONE;
        for (i, left) in self.row[..self.marks.units()].iter().enumerate() {
            if has(self.placed, i + 1) {
                sum = sum + self.past(i + 1, *left);
            }
        }
        sum
    }
}

pub struct Gradient;

impl Yardstick for Gradient {
    type Total = Grades;

    ghost numbers = { λ t. t.signs ∷ t.rises ∷ [] };

    ghost caps = { gradient.caps };

    ghost plus = { gradient.plus };

    ghost exceeds = { gradient.exceeds };

    ghost meaning = { gradient.step };

    ghost told_apart = { Prim.search rules };

    ghost plus_zero = { Prim.search rules };

    ghost plus_comm = { Prim.search rules };

    ghost plus_assoc = { yardsticks_lawful.1.0.plus_assoc };

    ghost never_itself = { Prim.search rules };

    ghost transitive = { yardsticks_lawful.1.0.transitive };

    ghost compared = { Prim.search rules };

    ghost after_adding = { yardsticks_lawful.1.0.after_adding };

    ghost adds_caps = { yardsticks_lawful.1.0.adds_caps };

    ghost step_within = { yardsticks_lawful.1.0.step_within };

    fn zero() -> Grades {
        Grades::NONE
    }

    fn add(s: Grades, t: Grades) -> Grades {
        s + t
    }

    fn exceeds(s: Grades, t: Grades) -> bool {
        s > t
    }

    fn step(marks: &Marks, placed: u32, unit: usize) -> Grades {
        let row = row_of(marks, unit);
        let placing = Placing {
            marks,
            placed,
            unit,
            row,
        };
        placing.step()
    }
}
