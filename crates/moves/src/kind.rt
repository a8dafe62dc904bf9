// What a kind of move is, and what it owes.
ghost use Rattle.std.specs.Prelude.{◌≡◌, ℕ, ◌^◌, ◌<◌, ◌≤◌, List, length};
ghost use Rattle.rules.specs.Orders.{Order};

use marks::units::Units;

// Some ways to rearrange an order, numbered from 1.
pub trait MoveKind {
    // how many moves there are, for a number of units
    ghost many: { ℕ → ℕ };

    // what a move makes of an order, from the number of units, the move's number, and the order
    ghost moved: { ℕ → ℕ → List ℕ → List ℕ };

    // How many moves there are for some units.
    fn many(units: Units) -> u32
        ensures { result ≡ many units.count };

    // Makes the move with a number on a whole order. The number is a plain one, since its bound is a fact of the order too.
    fn make(number: u32, order: &mut [u8])
        requires { (2 ≤ length order.old) × ((length order.old ≤ 20) × ((1 ≤ number) × (number ≤ many (length order.old)))) }
        ensures { order.new ≡ moved (length order.old) number order.old };

    // the moves are counted in 32 bits
    ghost few: { (n : ℕ) → 2 ≤ n → n ≤ 20 → many n < 2 ^ 32 };

    // each turns an order into an order
    ghost order_again: { (n i : ℕ) (o : List ℕ) → 1 ≤ i → i ≤ many n → Order n o → Order n (moved n i o) };
}
