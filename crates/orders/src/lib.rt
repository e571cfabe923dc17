// Orders and what is around them: the settings of a market, the terms of an order, what a member sends, and the refusals.
#![tactic(auto)]

pub mod capacity;
mod checks;
pub mod instruction;
pub mod order;
mod ranges;
pub mod refusal;
pub mod settings;
pub mod terms;
pub mod ticket;
