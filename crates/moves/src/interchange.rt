// Interchange: two units change places.
ghost use Rattle.std.specs.Prelude.{◌≡◌, ◌<◌, ◌≤◌, nat_lt};
ghost use Rattle.rules.specs.Moves.{interchange};
ghost use Rattle.moves.specs.Places.{place_pair};
ghost use Rattle.rules.proofs.Moving.{moves_lawful};

use crate::kind::MoveKind;
use marks::units::Units;

pub struct Interchange;

// The places u < v, from 0, of the move with a number: the moves are numbered by u, then by v.
fn places(units: usize, number: u32) -> (usize, usize)
    requires { (1 ≤ number) × (number ≤ interchange.many units) }
    ensures value { result ≡ place_pair nat_lt units number }
    ensures within { (result.0 < units) × (result.1 < units) }
{
    let mut left = number as usize - 1;
    // A range, since u is a part of the answer.
    for u in 0..units {
        let later = units - u - 1;
        if left < later {
            return (u, u + 1 + left);
        }
        left -= later;
    }
    unreachable!()
}

impl MoveKind for Interchange {
    ghost many = { interchange.many };

    ghost moved = { interchange.moved };

    ghost few = { moves_lawful.0.few };

    ghost order_again = { moves_lawful.0.order_again };

    fn many(units: Units) -> u32 {
        let n = units.count;
        (n * (n - 1) / 2) as u32
    }

    fn make(number: u32, order: &mut [u8]) {
        let (u, v) = places(order.len(), number);
        order.swap(u, v);
    }
}
