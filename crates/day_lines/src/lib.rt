// Reads the lines of a day: bytes into fields, fields into what a line says, and that by where in the day the line stands.
#![tactic(auto)]

mod cursor;
mod digits;
pub mod fault;
mod field;
mod grammar;
pub mod line;
mod passing;
pub mod reading;
pub mod stage;
