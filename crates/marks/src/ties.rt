// The ties of a sheet, with what always holds of them.
ghost use Rattle.marks.specs.TieSets.{OnUnits};

use crate::units::Units;

pub mod ops;

// For each unit the set of the units that stand earlier. Fixed memory: twenty sets, also for fewer units.
#[derive(Clone, Copy)]
pub struct Ties {
    units: Units,
    before: [u32; 20],
    ghost own: { OnUnits units.count before },
}
