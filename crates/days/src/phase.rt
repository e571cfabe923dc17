// The phase of a day.
use engine::frozen::Frozen;
use engine::pre_call::PreCall;

// An open freeze has to be ended before a day can be let go.
pub enum Phase {
    PreCall(PreCall),
    Frozen(Frozen),
}
