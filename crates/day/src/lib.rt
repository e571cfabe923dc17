// A day: its lines carried out one by one over any store, each with its answer.
#![tactic(auto)]

pub mod answer;
pub mod day;
pub mod phase;
