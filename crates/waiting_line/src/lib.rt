// A waiting line: a queue over lent slots, for records of every kind.
#![tactic(auto)]

pub mod calls;
pub mod line;
mod round;
