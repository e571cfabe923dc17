// Whole days over any store, and what holds of all of them.
#![tactic(auto)]

pub mod answer;
pub mod call;
pub mod counts;
pub mod journal;
pub mod note;
pub mod noting;
pub mod phase;
pub mod run;
mod turn;
