// Numbers that look random, and are the same in every run: for tests.
#![tactic(auto)]

ghost use Rattle.std.specs.Prelude.{◌≡◌, ◌+◌};
ghost use Rattle.test_random.specs.Draws.{next_state, drawn};

// A linear congruential generator; the lowest byte of its state is never shown.
#[derive(Drop)]
pub struct Random {
    state: u32,
}

impl Random {
    pub fn new(start: u32) -> Random
        ensures { result.state ≡ start }
    {
        Random { state: start }
    }

    // A number below `limit`, or 0.
    pub fn below(&mut self, limit: u32) -> u32
        ensures state { self.new.state ≡ next_state self.old.state }
        ensures value { result ≡ drawn limit self.new.state }
    {
        self.state = self
            .state
            .wrapping_mul(1_664_525)
            .wrapping_add(1_013_904_223);
        (self.state >> 8).checked_rem(limit).unwrap_or(0)
    }

    // A number from 1 to `limit`, or 1.
    pub fn up_to(&mut self, limit: u32) -> u32
        ensures state { self.new.state ≡ next_state self.old.state }
        ensures value { result ≡ drawn limit self.new.state + 1 }
    {
        self.below(limit) + 1
    }
}
