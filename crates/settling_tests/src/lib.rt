// Tests of triggered stops and settled fills, over both stores.
#![tactic(auto)]

#[cfg(test)]
mod fills;
#[cfg(test)]
mod lists;
#[cfg(test)]
mod stops;
