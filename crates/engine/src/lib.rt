// The engine: the phases of a day over any store.
#![tactic(auto)]

pub mod freeze;
pub mod frozen;
pub mod matched;
pub mod pre_call;
