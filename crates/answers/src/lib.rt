// The lines of answers, written into a lent buffer.
#![tactic(auto)]

pub mod line;
mod list;
mod number;
mod text;
pub mod total;
