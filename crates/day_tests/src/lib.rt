// Tests of the day: text in, text out.
#![tactic(auto)]

#[cfg(test)]
mod days;
#[cfg(test)]
mod faults;
#[cfg(test)]
mod talk;
