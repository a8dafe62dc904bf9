// The text of a day log: words, lines as commands, and the lines of a whole log.
#![tactic(auto)]

pub mod command;
pub mod fault;
pub mod log;
pub mod read;
mod scan;
pub mod token;
mod value;
pub mod words;
