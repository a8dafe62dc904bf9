// The tests of a row of labels.
ghost use Rattle.std.specs.Prelude.{◌≡◌, true, not, ◌↔◌, take, ◌==◌, nat_eq};
ghost use Rattle.std.specs.List.{list_all};
ghost use Rattle.rules.specs.Orders.{is_distinct};
ghost use Rattle.rules.specs.Units.{label};
ghost use Rattle.rules.specs.Orders.{Order, is_order, keeps};
ghost use Rattle.marks.specs.Tied.{tied_of, first_of, KeepsIf};

use crate::ties::Ties;
use crate::units::is_label;

// The first n of a row, or all of it where it is shorter.
fn first(row: &[u8], n: usize) -> &[u8]
    ensures { result.now ≡ take n row.now }
{
    row.get(..n).unwrap_or(row)
}

// Whether a row holds labels only.
fn all_labels(row: &[u8], n: usize) -> bool
    ensures { result ≡ list_all (label n) row.now }
{
    row.iter().all(|a| is_label(n, usize::from(*a)))
}

// Whether a row lacks a label.
fn lacks(row: &[u8], a: u8) -> bool
    ensures { result ≡ list_all (λ b. not (a == b)) row.now }
{
    row.iter().all(|b| a != *b)
}

// Whether a row holds nothing twice.
fn all_differ(row: &[u8]) -> bool
    ensures { result ≡ is_distinct nat_eq row.now }
{
    match row {
        [] => true,
        [a, rest @ ..] => lacks(rest, *a) && all_differ(rest),
    }
}

// Whether none of a row is tied before b.
fn none_earlier(ties: &Ties, row: &[u8], b: u8) -> bool
    ensures { result ≡ list_all (λ a. not (tied_of ties.now a b)) row.now }
{
    row.iter()
        .all(|a| !ties.tied(usize::from(*a), usize::from(b)))
}

// Whether nothing of a row is tied before what stands earlier in it or before itself. The rule, as above, is a recursion over
// the front of the row; one function for both would take a closure and be no shorter.
fn all_keep(ties: &Ties, row: &[u8]) -> bool
    ensures { result ≡ keeps (tied_of ties.now) row.now }
{
    match row {
        [] => true,
        [b, rest @ ..] => none_earlier(ties, row, *b) && all_keep(ties, rest),
    }
}

// Whether a row is an order of n units.
fn whole_order(row: &[u8], n: usize) -> bool
    ensures { result ≡ is_order n row.now }
{
    row.len() == n && all_labels(row, n) && all_differ(row)
}

// Whether the first n of a row are an order: each label from 1 to n once.
pub fn is_order(row: &[u8], n: usize) -> bool
    ensures test { result ≡ is_order n (take n row.now) }
    ensures means { (result ≡ true) ↔ Order n (take n row.now) }
{
    whole_order(first(row, n), n)
}

// The test of the ties, on as many of a row as there are units; of an order it says whether the order keeps the ties.
pub fn keeps(ties: &Ties, row: &[u8]) -> bool
    ensures test { result ≡ keeps (tied_of ties.now) (first_of ties.now row.now) }
    ensures means { KeepsIf ties.now (first_of ties.now row.now) result }
{
    all_keep(ties, first(row, ties.units()))
}
