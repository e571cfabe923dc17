// What an auction does to a store: stops are triggered, and fills are settled.
#![tactic(auto)]

pub mod fill;
pub mod settle;
pub mod stops;
