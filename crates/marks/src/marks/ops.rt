// What can be done with the marks of a sheet.
ghost use Rattle.std.specs.Prelude.{◌≡◌, ◌<◌, true, false, length, replicate, MatchOption, nat_le, slice_set, take};
ghost use Rattle.rules.specs.Orders.{is_order};
ghost use Rattle.rules.specs.Units.{label, displacement};
ghost use Rattle.marks.specs.Cells.{place, is_size, added};
ghost use Rattle.marks.specs.Numbers.{units_of, numbers_of, Blank, Put};

use super::Marks;
use crate::faults::MarkFault;
use crate::rows::is_order;
use crate::sets::has;
use crate::units::Units;

// The cell of the mark of two units. Labels are plain numbers, as callers hand them in.
fn place(a: usize, b: usize) -> usize
    requires { (label 20 a ≡ true) × (label 20 b ≡ true) }
    ensures is { result ≡ place a b }
    ensures within { result < 400 }
{
    (a - 1) * 20 + (b - 1)
}

// Cells that are all 0.
fn zeros() -> [u16; 400]
    ensures { result ≡ replicate 400 0 }
{
    [0; 400]
}

// Whether a number may be a mark.
fn is_low(d: u16) -> bool
    ensures { result ≡ nat_le d 10000 }
{
    d <= 10000
}

// Writes a mark into both cells of a pair.
fn store(cells: &mut [u16; 400], a: usize, b: usize, d: u16)
    requires { (label 20 a ≡ true) × (label 20 b ≡ true) }
    ensures stored { cells.new ≡ slice_set (slice_set cells.old (place a b) d) (place b a) d }
    ensures whole { length cells.old ≡ 400 }
{
    cells[place(a, b)] = d;
    cells[place(b, a)] = d;
}

// What a mark adds to the displacement of a unit: nothing if it is the unit's own, else the mark with the sign of its side.
fn term(mark: u16, own: bool, before: bool) -> i64
    ensures { result ≡ added mark own before }
{
    if own {
        0
    } else if before {
        i64::from(mark)
    } else {
        -i64::from(mark)
    }
}

impl Marks {
    // Marks for some units, all 0; none unless there are 2 to 20 units.
    pub fn new(units: u64) -> Option<Marks>
        ensures { MatchOption result (is_size units ≡ false) (λ m. (is_size units ≡ true) × Blank units m) }
    {
        Some(Marks::blank(Units::new(units)?))
    }

    // The same for a number of units that a sheet may have.
    pub fn blank(units: Units) -> Marks
        ensures { Blank units.count result }
    {
        Marks {
            units,
            cells: zeros(),
        }
    }

    // How many units there are.
    pub fn units(&self) -> usize
        ensures { result ≡ units_of self.now }
    {
        self.size().count
    }

    // The same, with its bounds.
    pub fn size(&self) -> Units
        ensures { result.count ≡ units_of self.now }
    {
        self.units
    }

    // Gives a pair its mark, in both directions. Refused, and nothing is changed, if a and b are not two of the units or
    // the mark is above 10,000.
    pub fn put(&mut self, a: usize, b: usize, d: u16) -> Result<(), MarkFault>
        ensures { Put self.old a b d result self.new }
    {
        if !self.units.has_pair(a, b) {
            return Err(MarkFault::NoPair);
        }
        if !is_low(d) {
            return Err(MarkFault::High);
        }
        store(&mut self.cells, a, b, d);
        Ok(())
    }

    // The mark of two units, 0 if a and b are not two of the units.
    pub fn mark(&self, a: usize, b: usize) -> u16
        ensures { result ≡ numbers_of self.now a b }
    {
        if self.units.has_pair(a, b) {
            self.cells[place(a, b)]
        } else {
            0
        }
    }

    // The order that a row begins with: as many labels as there are units. None unless they are an order. A slice, since what
    // callers go on to say of it is about the marks too.
    pub fn order_in<'a>(&self, row: &'a [u8]) -> Option<&'a [u8]>
        ensures { MatchOption result (is_order (units_of self.now) (take (units_of self.now) row.now) ≡ false) (λ order.
            (order.now ≡ take (units_of self.now) row.now) × (is_order (units_of self.now) order.now ≡ true)) }
    {
        let units = self.units();
        if is_order(row, units) {
            Some(&row[..units])
        } else {
            None
        }
    }

    // The displacement of a unit after the units of a set: its marks to them minus its marks to the others.
    pub fn displacement(&self, placed: u32, unit: usize) -> i64
        ensures { result ≡ displacement (numbers_of self.now) (units_of self.now) placed unit }
    {
        if !self.units.has_label(unit) {
            return 0;
        }
        let start = (unit - 1) * 20;
        let row = &self.cells[start..start + self.units.count];
        let mut sum = 0;
        for (i, mark) in row.iter().enumerate() {
            sum += term(*mark, i + 1 == unit, has(placed, i + 1));
        }
        sum
    }
}
