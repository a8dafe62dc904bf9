// One cell for each pair of twenty units: half a square.
ghost use Rattle.std.specs.Prelude.{◌≡◌, ℕ, ◌<◌, ◌≤◌, true, false, ◌&&◌, length, if◌then◌else◌, MatchOption, slice_set};
ghost use Rattle.rules.specs.Sheets.{same_pair};
ghost use Rattle.marks.specs.Cells.{pair, is_size};
ghost use Rattle.marks.specs.Numbers.{units_of};
ghost use Rattle.cells.specs.Places.{place};
ghost use Rattle.cells.specs.Read.{mark_at, AllGaps};
ghost use Rattle.cells.specs.Gaps.{FirstGap, row_outcome, row_decided, low_value, RowCopied, AsNumbers};

use marks::marks::Marks;
use marks::units::Units;
use rules::Mark;

// A plain table: any cell may hold any mark. Fixed memory: a cell for each pair of twenty units, also for fewer.
#[derive(Clone, Copy)]
pub struct Triangle {
    cells: [Mark; 190],
}

// The cell of a pair: by the higher label, then by the lower one. None if a and b are not two labels up to 20.
fn place(a: usize, b: usize) -> Option<usize>
    ensures { MatchOption result (pair 20 a b ≡ false) (λ cell. (pair 20 a b ≡ true) × (cell ≡ place a b) × (cell < 190)) }
{
    if !Units::MOST.has_pair(a, b) {
        return None;
    }
    let low = a.min(b);
    let high = a.max(b);
    Some((high - 1) * (high - 2) / 2 + (low - 1))
}

// The number of a mark, 0 for a gap and for a number that no pair may have.
fn low_value(mark: Mark) -> u16
    ensures is { result ≡ low_value mark }
    ensures low { result ≤ 10000 }
{
    match mark {
        Mark::Number(d) if d <= 10000 => d,
        _ => 0,
    }
}

impl Triangle {
    // All pairs are gaps.
    pub fn new() -> Triangle
        ensures { AllGaps result }
    {
        Triangle {
            cells: [Mark::Gap; 190],
        }
    }

    // The mark of a pair; a gap if a and b are not two labels up to 20.
    pub fn mark(&self, a: usize, b: usize) -> Mark
        ensures { result ≡ mark_at self.now a b }
    {
        match place(a, b) {
            Some(cell) => self.cells[cell],
            None => Mark::Gap,
        }
    }

    // Gives a pair its mark; changes nothing if a and b are not two labels up to 20.
    pub fn put(&mut self, a: usize, b: usize, mark: Mark)
        ensures { (x y : ℕ) → mark_at self.new x y ≡ (if pair 20 a b && same_pair a b x y then mark else mark_at self.old x y) }
    {
        if let Some(cell) = place(a, b) {
            self.cells[cell] = mark;
        }
    }

    // The first later label whose pair with a is a gap.
    fn gap_after(&self, units: usize, a: usize) -> Option<usize>
        requires least { 1 ≤ a }
        requires most { a < units }
        ensures { row_outcome a result ≡ row_decided units self.now a a }
    {
        (a + 1..=units).find(|b| self.mark(a, *b) == Mark::Gap)
    }

    // The first pair of some units that is a gap, by its lower and then its higher label.
    pub fn first_gap(&self, units: usize) -> Option<(usize, usize)>
        ensures { FirstGap units self.now result }
    {
        (1..units).find_map(|a| self.gap_after(units, a).map(|b| (a, b)))
    }

    // Copies the numbers of the pairs of a and later labels.
    fn copy_row(&self, marks: &mut Marks, a: usize)
        requires least { 1 ≤ a }
        requires most { a < units_of marks.old }
        ensures { RowCopied self.now a marks.old marks.new }
    {
        for b in a + 1..=marks.units() {
            // Never refused: a and b are two of the units, and the number is low.
            let _ = marks.put(a, b, low_value(self.mark(a, b)));
        }
    }

    // The marks of some units as numbers, a gap as 0.
    pub fn measured(&self, units: Units) -> Marks
        ensures { AsNumbers units.count self.now result }
    {
        let mut marks = Marks::blank(units);
        for a in 1..units.count {
            self.copy_row(&mut marks, a);
        }
        marks
    }

    // The same for any number of units; none unless there are 2 to 20.
    pub fn numbers(&self, units: u64) -> Option<Marks>
        ensures { MatchOption result (is_size units ≡ false) (λ m. (is_size units ≡ true) × AsNumbers units self.now m) }
    {
        Units::new(units).map(|units| self.measured(units))
    }
}
