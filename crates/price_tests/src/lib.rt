// Tests of the trial price and of the fills: examples, and reckonings written apart.
#![tactic(auto)]

#[cfg(test)]
mod examples;
#[cfg(test)]
mod fills;
#[cfg(test)]
mod random;
#[cfg(test)]
mod reckoning;
#[cfg(test)]
mod setting;
#[cfg(test)]
mod share_by_share;
