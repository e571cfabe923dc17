// The phases of a day.
use engine::pre_call::PreCall;

#[derive(Drop)]
pub enum Phase {
    // the first line is still to come
    Opening,
    PreCall(PreCall),
    // the first line was not accepted
    Over,
}
