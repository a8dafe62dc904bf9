// Improving by the rules' own words: all moves from the first on, each on a copy of the row.
ghost use Rattle.std.specs.Prelude.{◌<◌};

use moves::improve::Improvement;
use moves::insertion::Insertion;
use moves::interchange::Interchange;
use moves::kind::MoveKind;
use samples::plain::Plain;
use samples::rows::{Row, keeps_ties};
use samples::sheets::Sheet;

// A kind of move with a plain way to make its moves.
pub trait PlainMove: MoveKind {
    // What a move about two places makes of a row; none if the kind has no such move.
    fn moved(row: Row, u: usize, v: usize) -> Option<Row>
        requires { (u < 20) × (v < 20) };
}

impl PlainMove for Interchange {
    fn moved(mut row: Row, u: usize, v: usize) -> Option<Row> {
        if u >= v {
            return None;
        }
        row.swap(u, v);
        Some(row)
    }
}

impl PlainMove for Insertion {
    // The unit at u changes places with its neighbours one by one: by place, since two places are exchanged.
    fn moved(mut row: Row, u: usize, v: usize) -> Option<Row> {
        if u == v {
            return None;
        }
        for place in u..v {
            row.swap(place, place + 1);
        }
        for place in (v..u).rev() {
            row.swap(place, place + 1);
        }
        Some(row)
    }
}

// Whether a row keeps the ties and has a greater total than another.
fn is_better<Y: Plain>(sheet: &Sheet, row: &Row, other: &Row) -> bool {
    keeps_ties(&sheet.ties, &row[..sheet.marks.units()])
        && Y::plain_total(&sheet.marks, row) > Y::plain_total(&sheet.marks, other)
}

// The row that the first better move from a place gives; none if there is none.
fn next_from<M: PlainMove, Y: Plain>(sheet: &Sheet, row: &Row, u: usize) -> Option<Row>
    requires { u < 20 }
{
    (0..sheet.marks.units())
        .filter_map(|v| M::moved(*row, u, v))
        .find(|moved| is_better::<Y>(sheet, moved, row))
}

// The row that the first better move gives, by the first place and then by the second; none if there is none.
fn next<M: PlainMove, Y: Plain>(sheet: &Sheet, row: &Row) -> Option<Row> {
    (0..sheet.marks.units()).find_map(|u| next_from::<M, Y>(sheet, row, u))
}

// Improves the order in a row, which keeps the ties.
pub fn plain_improve<M: PlainMove, Y: Plain>(
    sheet: &Sheet,
    limit: u32,
    row: &mut Row,
) -> Improvement<Y::Total> {
    for made in 0..limit {
        match next::<M, Y>(sheet, row) {
            Some(better) => *row = better,
            None => {
                return Improvement {
                    made,
                    total: Y::plain_total(&sheet.marks, row),
                    settled: true,
                };
            }
        }
    }
    Improvement {
        made: limit,
        total: Y::plain_total(&sheet.marks, row),
        settled: next::<M, Y>(sheet, row).is_none(),
    }
}
