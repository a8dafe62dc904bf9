// The marks of a sheet without gaps, with what always holds of them.
ghost use Rattle.rules.specs.Yardsticks.{Low, Symmetric};
ghost use Rattle.marks.specs.Cells.{read};

use crate::units::Units;

pub mod ops;

// Row by row, so that the marks of one unit lie side by side. Fixed memory: twenty rows, also for fewer units.
#[derive(Clone, Copy)]
pub struct Marks {
    units: Units,
    cells: [u16; 400],
    ghost symmetric: { Symmetric (read units.count cells) },
    ghost low: { Low (read units.count cells) },
}
