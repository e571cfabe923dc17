// A store whose rows are chained by index to both neighbours; no row moves, and freed rows are used again.
#![tactic(auto)]

pub mod calls;
mod chain;
mod links;
pub mod rows;
pub mod table;
mod walk;
