// The sheet, with what always holds of it.
ghost use Rattle.std.specs.Prelude.{◌≡◌};
ghost use Rattle.rules.specs.Yardsticks.{Low};
ghost use Rattle.marks.specs.Tied.{tied_units};
ghost use Rattle.cells.specs.Read.{number_at};

use cells::triangle::Triangle;
use marks::ties::Ties;
use marks::units::Units;

pub mod asks;
pub mod changes;

// How unlike some units are, pair by pair, and which stand earlier than others.
#[derive(Clone, Copy)]
pub struct Sheet {
    units: Units,
    cells: Triangle,
    ties: Ties,
    ghost low: { Low (number_at cells) },
    ghost same: { tied_units ties ≡ units.count },
}
