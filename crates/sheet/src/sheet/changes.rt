// Opening a sheet, and the calls that change it.
ghost use Rattle.std.specs.Prelude.{◌≡◌, true, is_ok};
ghost use Rattle.rules.specs.Sheets.{new_contents};
ghost use Rattle.rules.specs.Calls.{pair_outcome};
ghost use Rattle.sheet.specs.Faults.{change_outcome};
ghost use Rattle.sheet.specs.Contents.{contents};
ghost use Rattle.sheet.specs.Changes.{Opens, open_reply, Writes, Blanks, Binds, Unbinds};
ghost use Rattle.sheet.specs.Runs.{Promise};

use super::Sheet;
use crate::faults::{Label, SheetFault};
use cells::triangle::Triangle;
use marks::ties::Ties;
use marks::units::Units;
use rules::Mark;

impl Sheet {
    // A new sheet: all pairs are gaps, and there is no tie.
    fn of(units: Units) -> Sheet
        ensures { contents result ≡ new_contents units.count }
    {
        Sheet {
            units,
            cells: Triangle::new(),
            ties: Ties::none(units),
        }
    }

    // A new sheet of two units, to be opened.
    pub fn new() -> Sheet
        ensures { contents result ≡ new_contents 2 }
    {
        Sheet::of(Units::LEAST)
    }

    // Makes this a new sheet of n units: all pairs are gaps, and there is no tie. Refused, and nothing is changed, unless
    // there are 2 to 20 units.
    pub fn open(&mut self, n: u64) -> Result<(), SheetFault>
        ensures opens { Opens self.old n (open_reply self.new result) self.new }
        ensures promise { is_ok result ≡ true → Promise n self.new }
    {
        let units = Units::new(n).ok_or(SheetFault::Size)?;
        *self = Sheet::of(units);
        Ok(())
    }

    // Whether a and b are the labels of two units.
    fn pair(&self, a: u64, b: u64) -> Result<(), SheetFault>
        ensures { change_outcome result ≡ pair_outcome self.now.units.count a b }
    {
        if !self.units.has_label(a as usize) {
            return Err(SheetFault::Stranger(Label::First));
        }
        if !self.units.has_label(b as usize) {
            return Err(SheetFault::Stranger(Label::Second));
        }
        if a == b {
            return Err(SheetFault::Itself(a, b));
        }
        Ok(())
    }

    // Gives a pair a number as its mark.
    pub fn write(&mut self, a: u64, b: u64, d: u64) -> Result<(), SheetFault>
        ensures { Writes self.old a b d (change_outcome result) self.new }
    {
        self.pair(a, b)?;
        if d > 10000 {
            return Err(SheetFault::High);
        }
        self.cells
            .put(a as usize, b as usize, Mark::Number(d as u16));
        Ok(())
    }

    // Makes a pair a gap.
    pub fn blank(&mut self, a: u64, b: u64) -> Result<(), SheetFault>
        ensures { Blanks self.old a b (change_outcome result) self.new }
    {
        self.pair(a, b)?;
        self.cells.put(a as usize, b as usize, Mark::Gap);
        Ok(())
    }

    // Says that a stands earlier than b.
    pub fn tie(&mut self, a: u64, b: u64) -> Result<(), SheetFault>
        ensures { Binds self.old a b (change_outcome result) self.new }
    {
        self.pair(a, b)?;
        let _ = self.ties.set(a as usize, b as usize, true);
        Ok(())
    }

    // Takes that back.
    pub fn untie(&mut self, a: u64, b: u64) -> Result<(), SheetFault>
        ensures { Unbinds self.old a b (change_outcome result) self.new }
    {
        self.pair(a, b)?;
        let _ = self.ties.set(a as usize, b as usize, false);
        Ok(())
    }
}
