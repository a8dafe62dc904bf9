// Improving an order by moves: the trait of a kind of move, interchange and insertion, and the improving.
#![tactic(auto)]

pub mod improve;
pub mod insertion;
pub mod interchange;
pub mod kind;
mod trial;
