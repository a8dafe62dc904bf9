// How many units a sheet has, and their labels.
ghost use Rattle.std.specs.Prelude.{◌≡◌, ◌≤◌, true, false, MatchOption};
ghost use Rattle.rules.specs.Units.{label};
ghost use Rattle.marks.specs.Cells.{is_size, pair};

// A number of units that a sheet may have: 2 to 20.
#[derive(Clone, Copy, PartialEq, Eq, Debug)]
pub struct Units {
    pub count: usize,
    pub ghost least: { 2 ≤ count },
    pub ghost most: { count ≤ 20 },
}

// Whether a is one of the labels 1 to n.
pub(crate) fn is_label(n: usize, a: usize) -> bool
    ensures { result ≡ label n a }
{
    (1..=n).contains(&a)
}

impl Units {
    // The fewest units of a sheet, and the most.
    pub const LEAST: Units = Units { count: 2 };

    pub const MOST: Units = Units { count: 20 };

    // So many units; none unless they are 2 to 20. A constructor that answers none, as std has for numbers other than 0.
    pub fn new(units: u64) -> Option<Units>
        ensures { MatchOption result (is_size units ≡ false) (λ u. (is_size units ≡ true) × (u.count ≡ units)) }
    {
        if (2..=20).contains(&units) {
            Some(Units {
                count: units as usize,
            })
        } else {
            None
        }
    }

    // Whether a is the label of one of them.
    pub fn has_label(self, a: usize) -> bool
        ensures { result ≡ label self.count a }
    {
        is_label(self.count, a)
    }

    // Whether a and b are the labels of two of them. Labels are handed on one by one, as the calls name them: a struct of
    // two would be longer at each call.
    pub fn has_pair(self, a: usize, b: usize) -> bool
        ensures { result ≡ pair self.count a b }
    {
        self.has_label(a) && self.has_label(b) && a != b
    }
}
