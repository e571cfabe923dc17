// One auction over any store: stops are triggered, the price is found, orders are filled.
#![tactic(auto)]

pub mod auctioned;
pub mod hold;
