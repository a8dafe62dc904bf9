// Whether some order keeps the ties.
ghost use Rattle.std.specs.Prelude.{◌≡◌, ℕ, true, not, ◌↔◌, List, MatchOption};
ghost use Rattle.rules.specs.Orders.{Order, Keeps, ready_units, circular};
ghost use Rattle.rules.specs.Recurrence.{placeable};
ghost use Rattle.marks.specs.Tied.{tied_units, tied_of};
ghost use Rattle.search.specs.Parts.{FirstReady};

use crate::sets::ready;
use marks::sets::with_unit;
use marks::ties::Ties;

// The first unit that may come next after a set.
fn first_ready(ties: &Ties, set: u32) -> Option<usize>
    ensures { FirstReady (ready_units (tied_of ties.now) (tied_units ties.now) set) result }
{
    (1..=ties.units()).find(|unit| ready(ties, set, *unit))
}

// Places ready units until all are placed or none is ready.
pub fn has_order(ties: &Ties) -> bool
    ensures test { result ≡ placeable (tied_of ties.now) (tied_units ties.now) }
    ensures means { (result ≡ true) ↔ ((o : List ℕ) × (Order (tied_units ties.now) o × Keeps (tied_of ties.now) o)) }
    ensures circle { result ≡ not (circular (tied_of ties.now) (tied_units ties.now)) }
{
    let mut placed = 0;
    for _ in 0..ties.units() {
        let Some(unit) = first_ready(ties, placed) else {
            return false;
        };
        placed = with_unit(placed, unit);
    }
    true
}
