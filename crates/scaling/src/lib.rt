// The coordinates of an order along a line with their loss, and the comparisons of the anti-Robinson pattern.
#![tactic(auto)]

pub mod comparisons;
pub mod coordinates;
