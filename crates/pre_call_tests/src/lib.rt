// Tests of settings, the row table, and the instructions of pre-call.
#![tactic(auto)]

#[cfg(test)]
mod answers;
#[cfg(test)]
mod settings;
#[cfg(test)]
mod table;
