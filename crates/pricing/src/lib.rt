// The price of an auction over any readable book.
#![tactic(auto)]

mod best;
pub mod depth;
pub mod gather;
pub mod quote;
mod stops;
pub mod trial;
