// Saved books: a book written as bytes, bytes read as a book, and a store loaded from them.
#![tactic(auto)]

pub mod accept;
mod bytes;
pub mod fault;
mod layout;
pub mod load;
pub mod reading;
mod records;
pub mod save;
pub mod saved;
