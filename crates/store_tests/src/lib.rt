// Both stores side by side: the same calls, the same answers, the same lists.
#![tactic(auto)]

#[cfg(test)]
mod calls;
#[cfg(test)]
mod lists;
#[cfg(test)]
mod sequences;
