// Quote requests, which wait for the Specialist.
#![tactic(auto)]

pub mod list;
pub mod request;
