// Who is ahead, the queues of an auction, and its fills.
#![tactic(auto)]

pub mod fills;
pub mod interest;
mod pairs;
pub mod placed;
pub mod priority;
mod queue;
