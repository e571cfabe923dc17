// Instructions carried out on a store.
#![tactic(auto)]

pub mod carry_out;
pub mod effect;
