// What a yardstick is, and what it owes.
ghost use Rattle.std.specs.Prelude.{◌≡◌, ℕ, ◌+◌, ◌^◌, ◌<◌, ◌≤◌, Bool, true, false, List, ℤ};
ghost use Rattle.rules.specs.Units.{label, has};
ghost use Rattle.rules.specs.Yardsticks.{Within, Low, Symmetric, zeros};
ghost use Rattle.marks.specs.Numbers.{units_of, numbers_of};

use marks::marks::Marks;

// A way to measure orders: one step for each set of units already placed and each unit outside it, and totals of steps.
pub trait Yardstick {
    type Total: Copy;

    // the whole numbers of a total, as many as there are caps
    ghost numbers: { Self.Total → List ℤ };

    // how far from zero a step can lie, for each number
    ghost caps: { List ℕ };

    // the sum of two totals
    ghost plus: { List ℤ → List ℤ → List ℤ };

    // the first total is greater than the second
    ghost exceeds: { List ℤ → List ℤ → Bool };

    // the step, from the marks, the number of units, the set already placed, and the unit placed next
    ghost meaning: { (ℕ → ℕ → ℕ) → ℕ → ℕ → ℕ → List ℤ };

    // 0 in each number
    fn zero() -> Self::Total
        ensures { numbers result ≡ zeros caps };

    // The sum of two totals within twenty-one caps whose sum is within them too: it fits the type.
    fn add(s: Self::Total, t: Self::Total) -> Self::Total
        requires { (Within 21 caps (numbers s)) × ((Within 21 caps (numbers t)) × (Within 21 caps (plus (numbers s) (numbers t)))) }
        ensures { numbers result ≡ plus (numbers s) (numbers t) };

    // Whether the first total is greater than the second.
    fn exceeds(s: Self::Total, t: Self::Total) -> bool
        ensures { result ≡ exceeds (numbers s) (numbers t) };

    // The step of a unit outside the set already placed.
    fn step(marks: &Marks, placed: u32, unit: usize) -> Self::Total
        requires { (placed < 2 ^ units_of marks.now) × ((label (units_of marks.now) unit ≡ true) × (has placed unit ≡ false)) }
        ensures { numbers result ≡ meaning (numbers_of marks.now) (units_of marks.now) placed unit };

    // `numbers` loses nothing
    ghost told_apart: { (s t : Self.Total) → numbers s ≡ numbers t → s ≡ t };

    // laws of adding, where all sums stay within twenty-one caps of zero
    ghost plus_zero: { (u : List ℤ) → Within 21 caps u → plus u (zeros caps) ≡ u };

    ghost plus_comm: { (u v : List ℤ) → Within 21 caps u → Within 21 caps v → Within 21 caps (plus u v) → Within 21 caps (plus v u) → plus u v ≡ plus v u };

    ghost plus_assoc: { (u v w : List ℤ) → Within 21 caps u → Within 21 caps v → Within 21 caps w → Within 21 caps (plus u v) → Within 21 caps (plus v w) → Within 21 caps (plus (plus u v) w) → Within 21 caps (plus u (plus v w)) → plus (plus u v) w ≡ plus u (plus v w) };

    // the totals within twenty-one caps are in a total order
    ghost never_itself: { (u : List ℤ) → Within 21 caps u → exceeds u u ≡ false };

    ghost transitive: { (u v w : List ℤ) → Within 21 caps u → Within 21 caps v → Within 21 caps w → exceeds u v ≡ true → exceeds v w ≡ true → exceeds u w ≡ true };

    ghost compared: { (u v : List ℤ) → Within 21 caps u → Within 21 caps v → exceeds u v ≡ false → exceeds v u ≡ false → u ≡ v };

    // one exceeds another exactly if it still does after a third is added to both
    ghost after_adding: { (u v w : List ℤ) → Within 21 caps u → Within 21 caps v → Within 21 caps w → Within 21 caps (plus u w) → Within 21 caps (plus v w) → exceeds (plus u w) (plus v w) ≡ exceeds u v };

    // caps add up, to twenty-one
    ghost adds_caps: { (a b : ℕ) (u v : List ℤ) → a + b ≤ 21 → Within a caps u → Within b caps v → Within (a + b) caps (plus u v) };

    // a step lies within one cap
    ghost step_within: { (p : ℕ → ℕ → ℕ) (n placed unit : ℕ) → 2 ≤ n → n ≤ 20 → Low p → Symmetric p → placed < 2 ^ n → label n unit ≡ true → has placed unit ≡ false → Within 1 caps (meaning p n placed unit) };
}
