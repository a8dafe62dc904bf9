// Spread: the displacement squared.
ghost use Rattle.std.specs.Prelude.{[], ◌∷◌, pos};
ghost use Rattle.rules.specs.Yardsticks.{spread};
ghost use Rattle.rules.proofs.Lawfulness.{yardsticks_lawful};
ghost use Rattle.std.proofs.Common.{rules};

use crate::yardstick::Yardstick;
use marks::marks::Marks;

pub struct Spread;

impl Yardstick for Spread {
    type Total = u64;

    ghost numbers = { λ t. pos t ∷ [] };

    ghost caps = { spread.caps };

    ghost plus = { spread.plus };

    ghost exceeds = { spread.exceeds };

    ghost meaning = { spread.step };

    ghost told_apart = { Prim.search rules };

    ghost plus_zero = { Prim.search rules };

    ghost plus_comm = { Prim.search rules };

    ghost plus_assoc = { Prim.search rules };

    ghost never_itself = { Prim.search rules };

    ghost transitive = { Prim.search rules };

    ghost compared = { Prim.search rules };

    ghost after_adding = { Prim.search rules };

    ghost adds_caps = { Prim.search rules };

    ghost step_within = { yardsticks_lawful.0.step_within };

    fn zero() -> u64 {
        0
    }

    fn add(s: u64, t: u64) -> u64 {
        s + t
    }

    fn exceeds(s: u64, t: u64) -> bool {
        s > t
    }

    fn step(marks: &Marks, placed: u32, unit: usize) -> u64 {
        let far = marks.displacement(placed, unit).unsigned_abs();
        far * far
    }
}
