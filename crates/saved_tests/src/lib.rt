// Tests of saved books: each fault at each field, round trips through both stores, and a decoder written apart.
#![tactic(auto)]

#[cfg(test)]
mod entry;
#[cfg(test)]
mod faults;
#[cfg(test)]
mod random;
#[cfg(test)]
mod reckoning;
#[cfg(test)]
mod setting;
#[cfg(test)]
mod trips;
