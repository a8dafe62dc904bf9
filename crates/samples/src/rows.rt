// Rows of twenty places, of which the first ones hold an order; and all orders in label order.
use marks::ties::Ties;

pub type Row = [u8; 20];

// So many places of a row are lent in the comparisons: as many as the most units that they have.
pub const LENT: usize = 8;

// What the places past the order hold.
pub const REST: u8 = 99;

// A row with the first order of some units: 1, 2, 3 and so on.
pub fn first_row(units: usize) -> Row {
    let mut row = [REST; 20];
    for (place, label) in row.iter_mut().take(units).zip(1..) {
        *place = label;
    }
    row
}

// Makes an order the next one in label order. Answers false, and changes nothing, if it is the last one: a flag, since the
// next order stands in the place of the old one.
pub fn advance(order: &mut [u8]) -> bool {
    let Some(place) = order.windows(2).rposition(|pair| pair[0] < pair[1]) else {
        return false;
    };
    let unit = order[place];
    let Some(other) = order.iter().rposition(|&later| later > unit) else {
        return false;
    };
    order.swap(place, other);
    order[place + 1..].reverse();
    true
}

// Whether no unit is tied before one that stands earlier in the order.
pub fn keeps_ties(ties: &Ties, order: &[u8]) -> bool {
    order.iter().enumerate().all(|(i, &unit)| {
        !order[..i].iter().any(|&earlier| ties.tied(usize::from(unit), usize::from(earlier)))
    })
}
