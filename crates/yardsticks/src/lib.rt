// Yardsticks: the trait, the three of the rules, and the total of an order.
#![tactic(auto)]

pub mod gradient;
pub mod spread;
pub mod target;
pub mod total;
pub mod yardstick;
