// Target: the displacement times the place number of the position that is filled.
ghost use Rattle.std.specs.Prelude.{◌≡◌, ◌<◌, [], ◌∷◌, slice_index};
ghost use Rattle.rules.specs.Yardsticks.{target, places};
ghost use Rattle.rules.proofs.Lawfulness.{yardsticks_lawful};
ghost use Rattle.std.proofs.Common.{rules};

use crate::yardstick::Yardstick;
use marks::marks::Marks;

// The place numbers of the positions, in order: a table, since the rules give them as one.
const PLACES: [u8; 20] = [
    0, 1, 2, 3, 4, 5, 6, 7, 8, 9, 10, 11, 12, 13, 14, 15, 16, 17, 18, 19,
];

pub struct Target;

// The place number of the position after so many units: how many they are.
fn place(filled: usize) -> u8
    requires { filled < 20 }
    ensures table { result ≡ slice_index places filled }
    ensures rule { result ≡ filled }
{
    PLACES[filled]
}

impl Yardstick for Target {
    type Total = i64;

    ghost numbers = { λ t. t ∷ [] };

    ghost caps = { target.caps };

    ghost plus = { target.plus };

    ghost exceeds = { target.exceeds };

    ghost meaning = { target.step };

    ghost told_apart = { Prim.search rules };

    ghost plus_zero = { Prim.search rules };

    ghost plus_comm = { Prim.search rules };

    ghost plus_assoc = { Prim.search rules };

    ghost never_itself = { Prim.search rules };

    ghost transitive = { Prim.search rules };

    ghost compared = { Prim.search rules };

    ghost after_adding = { Prim.search rules };

    ghost adds_caps = { Prim.search rules };

    ghost step_within = { yardsticks_lawful.1.1.step_within };

    fn zero() -> i64 {
        0
    }

    fn add(s: i64, t: i64) -> i64 {
        s + t
    }

    fn exceeds(s: i64, t: i64) -> bool {
        s > t
    }

    fn step(marks: &Marks, placed: u32, unit: usize) -> i64 {
        let filled = placed.count_ones() as usize;
        marks.displacement(placed, unit) * i64::from(place(filled))
    }
}
