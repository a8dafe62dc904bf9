// Improving beside its plain version.
use crate::orders::draw_row;
use crate::plain::{PlainMove, plain_improve};
use moves::improve::{MoveFault, improve};
use moves::insertion::Insertion;
use moves::interchange::Interchange;
use samples::numbers::Numbers;
use samples::plain::Plain;
use samples::rows::{LENT, Row, keeps_ties};
use samples::sheets::Sheet;
use yardsticks::gradient::Gradient;
use yardsticks::spread::Spread;
use yardsticks::target::Target;

const LIMITS: [u32; 4] = [0, 1, 2, 100];

// What was compared so far. Not one type with that of the comparison of searches, which counts other things.
#[derive(Default, Drop)]
pub struct Tally {
    pub calls: u64,
    pub made: u64,
    pub settled: u64,
    pub against: u64,
    pub disagreements: u64,
}

impl Tally {
    // Counts a disagreement unless both agree.
    fn note(&mut self, agree: bool) {
        self.calls = self.calls.saturating_add(1);
        if !agree {
            self.disagreements = self.disagreements.saturating_add(1);
        }
    }
}

// Compares one call on an order that keeps the ties.
fn compare_improving<M: PlainMove, Y: Plain>(
    sheet: &Sheet,
    limit: u32,
    from: &Row,
    tally: &mut Tally,
) {
    let mut row = *from;
    let mut plain_row = *from;
    let answer = improve::<M, Y>(&sheet.marks, &sheet.ties, limit, &mut row[..LENT]);
    let plain = plain_improve::<M, Y>(sheet, limit, &mut plain_row);
    tally.note(answer == Ok(plain) && row == plain_row);
    if let Ok(found) = answer {
        tally.made = tally.made.saturating_add(u64::from(found.made));
        tally.settled = tally.settled.saturating_add(u64::from(found.settled));
    }
}

// Sees that an order against the ties is refused, and the row left as it was.
fn compare_against<M: PlainMove, Y: Plain>(
    sheet: &Sheet,
    limit: u32,
    from: &Row,
    tally: &mut Tally,
) {
    let mut row = *from;
    let answer = improve::<M, Y>(&sheet.marks, &sheet.ties, limit, &mut row[..LENT]);
    tally.against = tally.against.saturating_add(1);
    tally.note(answer == Err(MoveFault::Against) && row == *from);
}

// Compares the calls by a kind of move and a yardstick on one order of a sheet.
fn compare_by<M: PlainMove, Y: Plain>(sheet: &Sheet, from: &Row, tally: &mut Tally) {
    let keeps = keeps_ties(&sheet.ties, &from[..sheet.marks.units()]);
    for limit in LIMITS {
        if keeps {
            compare_improving::<M, Y>(sheet, limit, from, tally);
        } else {
            compare_against::<M, Y>(sheet, limit, from, tally);
        }
    }
}

// Compares the calls by a kind of move on one order of a sheet.
fn compare_kind<M: PlainMove>(sheet: &Sheet, from: &Row, tally: &mut Tally) {
    compare_by::<M, Spread>(sheet, from, tally);
    compare_by::<M, Gradient>(sheet, from, tally);
    compare_by::<M, Target>(sheet, from, tally);
}

// Compares all calls on some orders of a sheet.
pub fn compare_sheet(numbers: &mut Numbers, sheet: &Sheet, tally: &mut Tally) {
    for _ in 0..3 {
        let from = draw_row(numbers, sheet);
        compare_kind::<Interchange>(sheet, &from, tally);
        compare_kind::<Insertion>(sheet, &from, tally);
    }
}
