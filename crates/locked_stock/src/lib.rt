// The locked stock: what members send in a freeze waits in it, and is carried out when the freeze ends.
#![tactic(auto)]

pub mod hold;
pub mod receipt;
pub mod release;
