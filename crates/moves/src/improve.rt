// Improving an order by one kind of move.
ghost use Rattle.std.specs.Prelude.{◌≡◌, Some, length};
ghost use Rattle.marks.specs.Numbers.{units_of};
ghost use Rattle.yardsticks.specs.Merits.{merit_of};
ghost use Rattle.moves.specs.Members.{AsRuled};
ghost use Rattle.moves.specs.Kinds.{moves_of};
ghost use Rattle.moves.specs.Improving.{Startable, Reached, Improving};
ghost use Rattle.moves.specs.Faults.{words_of};

use crate::kind::MoveKind;
use crate::trial::Trial;
use marks::marks::Marks;
use marks::rows::keeps;
use marks::ties::Ties;
use std::error::Error;
use std::fmt;
use yardsticks::total::total;
use yardsticks::yardstick::Yardstick;

// Why there is no answer.
#[derive(Clone, Copy, PartialEq, Eq, Debug)]
pub enum MoveFault {
    // marks and ties are of different numbers of units
    Units,
    // the row has fewer places than there are units
    Short,
    // the first of the row are no order
    NoOrder,
    // the order breaks a tie
    Against,
}

impl fmt::Display for MoveFault {
    ghost output = { λ f. Some (words_of f) };

    fn fmt<W: fmt::Write>(&self, f: &mut fmt::Formatter<W>) -> fmt::Result {
        f.write_str(match self {
            MoveFault::Units => "marks and ties are of different numbers of units",
            MoveFault::Short => "the row has fewer places than there are units",
            MoveFault::NoOrder => "the first of the row are no order",
            MoveFault::Against => "the order breaks a tie",
        })
    }
}

impl Error for MoveFault {}

// How many moves were made, the total reached, and whether no move gives a better order from there.
#[derive(Clone, Copy, PartialEq, Eq, Debug)]
pub struct Improvement<T> {
    pub made: u32,
    pub total: T,
    pub settled: bool,
}

// Scans the moves from the first on, makes the first that gives a better order, and scans again from the first move; ends
// when there is none, or where there is one and the limit is reached. Marks and ties are handed on one by one, as they
// came: a struct of both would serve this function and one that it calls.
fn passes<M: MoveKind, Y: Yardstick>(
    marks: &Marks,
    ties: &Ties,
    limit: u32,
    start: Y::Total,
    order: &mut [u8],
) -> Improvement<Y::Total>
    requires start { Startable (moves_of M.MoveKind) (merit_of Y.Yardstick) marks.now ties.now Y.Yardstick.numbers start order.old }
    requires whole { length order.old ≡ units_of marks.now }
    ensures { Reached (moves_of M.MoveKind) (merit_of Y.Yardstick) marks.now ties.now Y.Yardstick.numbers limit order.old order.new result }
{
    let many = M::many(marks.size());
    let mut made = 0;
    let mut best = start;
    'pass: loop {
        for number in 1..=many {
            let trial = Trial::new::<M>(order, number);
            if let Some(total) = trial.better::<Y>(marks, ties, best) {
                if made == limit {
                    return Improvement {
                        made,
                        total: best,
                        settled: false,
                    };
                }
                trial.keep();
                made += 1;
                best = total;
                continue 'pass;
            }
        }
        return Improvement {
            made,
            total: best,
            settled: true,
        };
    }
}

// Improves the order in the first places of the row: makes the first move that gives a tie-keeping order of greater
// total, and so on from the first move again, until no move does or the limit is reached. A fault changes nothing.
pub fn improve<M: MoveKind, Y: Yardstick>(
    marks: &Marks,
    ties: &Ties,
    limit: u32,
    row: &mut [u8],
) -> Result<Improvement<Y::Total>, MoveFault>
    ensures { Improving (moves_of M.MoveKind) (merit_of Y.Yardstick) marks.now ties.now Y.Yardstick.numbers limit row.old row.new result }
{
    let units = marks.units();
    if ties.units() != units {
        return Err(MoveFault::Units);
    }
    if row.len() < units {
        return Err(MoveFault::Short);
    }
    let start = total::<Y>(marks, row).ok_or(MoveFault::NoOrder)?;
    if !keeps(ties, row) {
        return Err(MoveFault::Against);
    }
    let order = &mut row[..units];
    Ok(passes::<M, Y>(marks, ties, limit, start, order))
}

// Interchange and insertion are those of the rulebook.
pub fn kinds_as_ruled()
    ensures { AsRuled }
{}
