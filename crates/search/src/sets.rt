// Sets of units and the ties: what may come next after a set, and which sets are closed.
ghost use Rattle.std.specs.Prelude.{◌≡◌, ℕ, ◌^◌, ◌<◌};
ghost use Rattle.rules.specs.Orders.{follows, closed, ready};
ghost use Rattle.marks.specs.Tied.{tied_units, tied_of};
ghost use Rattle.search.specs.Parts.{part_of};

use marks::sets::has;
use marks::ties::Ties;

// Whether all units of one set are in another.
fn within(part: u32, set: u32) -> bool
    ensures { (n : ℕ) → part < 2 ^ n → result ≡ part_of n part set }
{
    part & set == part
}

// Whether all that are tied before a unit are in a set.
fn follows(ties: &Ties, set: u32, unit: usize) -> bool
    ensures { result ≡ follows (tied_of ties.now) (tied_units ties.now) set unit }
{
    within(ties.before(unit), set)
}

// Whether a unit may come next after a set.
pub(crate) fn ready(ties: &Ties, set: u32, unit: usize) -> bool
    ensures { result ≡ ready (tied_of ties.now) (tied_units ties.now) set unit }
{
    !has(set, unit) && follows(ties, set, unit)
}

// Whether a set is closed: it has all that are tied before a unit of it.
pub(crate) fn closed(ties: &Ties, set: u32) -> bool
    ensures { result ≡ closed (tied_of ties.now) (tied_units ties.now) set }
{
    // Places from 0, which take fewer instructions at each set than `1..=units`.
    (0..ties.units()).all(|place| !has(set, place + 1) || follows(ties, set, place + 1))
}
