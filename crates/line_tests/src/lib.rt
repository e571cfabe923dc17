// Tests of the waiting line and of quote requests.
#![tactic(auto)]

#[cfg(test)]
mod lines;
#[cfg(test)]
mod request_lists;
