// Whole days with freezes, auctions and held instructions: worked examples, and random days beside a reckoning written apart.
#![tactic(auto)]

#[cfg(test)]
mod calls;
#[cfg(test)]
mod engine_day;
#[cfg(test)]
mod examples;
#[cfg(test)]
mod price;
#[cfg(test)]
mod random;
#[cfg(test)]
mod reckoning;
#[cfg(test)]
mod resting;
