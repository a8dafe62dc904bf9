// Tests of improving: worked examples, limits, ties, and each fault.
#![tactic(auto)]

#[cfg(test)]
mod faults;
#[cfg(test)]
mod improving;
#[cfg(test)]
mod sheets;
