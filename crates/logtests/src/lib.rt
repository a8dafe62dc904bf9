// Tests of reading a log: number words, every form, the state rule, words by their places, and whole logs.
#![tactic(auto)]

#[cfg(test)]
mod forms;
#[cfg(test)]
mod logs;
#[cfg(test)]
mod places;
