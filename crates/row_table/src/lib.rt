// A store that is a table of rows, moved up when one leaves.
#![tactic(auto)]

pub mod calls;
pub mod rows;
pub mod table;
