// What can be done with the ties of a sheet.
ghost use Rattle.std.specs.Prelude.{◌≡◌, ℕ, ◌-◌, ◌^◌, ◌<◌, ◌≤◌, true, false, replicate, if◌then◌else◌, MatchOption, nat_eq};
ghost use Rattle.rules.specs.Units.{label, has};
ghost use Rattle.marks.specs.Cells.{is_size};
ghost use Rattle.marks.specs.Tied.{tied_units, tied_of, Untied, TieSet, EarlierSet};

use super::Ties;
use crate::faults::MarkFault;
use crate::sets::has;
use crate::units::Units;

// Twenty empty sets.
fn empty() -> [u32; 20]
    ensures { result ≡ replicate 20 0 }
{
    [0; 20]
}

// The set of one unit.
fn bit(unit: usize) -> u32
    requires { label 20 unit ≡ true }
    ensures { result ≡ 2 ^ (unit - 1) }
{
    1 << (unit - 1)
}

// A set with a unit or without it.
fn changed(set: u32, unit: usize, stands: bool) -> u32
    requires { label 20 unit ≡ true }
    ensures units { (x : ℕ) → 1 ≤ x → has result x ≡ (if nat_eq unit x then stands else has set x) }
    ensures within { (n : ℕ) → unit ≤ n → set < 2 ^ n → result < 2 ^ n }
{
    if has(set, unit) == stands {
        set
    } else {
        set ^ bit(unit)
    }
}

impl Ties {
    // No tie among some units; none unless there are 2 to 20 units. As for marks: a trait for both would be longer than this
    // line.
    pub fn new(units: u64) -> Option<Ties>
        ensures { MatchOption result (is_size units ≡ false) (λ t. (is_size units ≡ true) × Untied units t) }
    {
        Some(Ties::none(Units::new(units)?))
    }

    // The same for a number of units that a sheet may have.
    pub fn none(units: Units) -> Ties
        ensures { Untied units.count result }
    {
        Ties {
            units,
            before: empty(),
        }
    }

    // For how many units the ties are.
    pub fn units(&self) -> usize
        ensures { result ≡ tied_units self.now }
    {
        self.size().count
    }

    // The same, with its bounds.
    pub fn size(&self) -> Units
        ensures { result.count ≡ tied_units self.now }
    {
        self.units
    }

    // Says whether a stands earlier than b. Refused, and nothing is changed, if a and b are not two of the units.
    pub fn set(&mut self, a: usize, b: usize, stands: bool) -> Result<(), MarkFault>
        ensures { TieSet self.old a b stands result self.new }
    {
        if !self.units.has_pair(a, b) {
            return Err(MarkFault::NoPair);
        }
        self.before[b - 1] = changed(self.before[b - 1], a, stands);
        Ok(())
    }

    // The set of the units that stand earlier than a unit, empty for what is no unit.
    pub fn before(&self, unit: usize) -> u32
        ensures { EarlierSet self.now unit result }
    {
        if self.units.has_label(unit) {
            self.before[unit - 1]
        } else {
            0
        }
    }

    // Whether a stands earlier than b.
    pub fn tied(&self, a: usize, b: usize) -> bool
        ensures { result ≡ tied_of self.now a b }
    {
        a >= 1 && has(self.before(b), a)
    }
}
