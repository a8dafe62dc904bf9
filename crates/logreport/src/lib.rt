// A report on a day log: what each line asks in plain words, and how many lines of each kind there are.
#![tactic(auto)]

pub mod count;
pub mod report;
pub mod said;
