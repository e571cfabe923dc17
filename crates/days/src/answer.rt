// What the calls of a day answer.
ghost use Rattle.std.specs.Prelude.{◌≡◌};
ghost use Rattle.days.specs.Days.{answer_of};
ghost use Rattle.days.specs.Steps.{told_waiting};

use engine::matched::Matched;
use instructions::effect::Effect;
use orders::refusal::Refusal;

#[derive(Clone, Copy, PartialEq, Eq, Debug)]
pub enum Answer {
    // an instruction was carried out
    Done(Effect),
    // an instruction waits for the end of the freeze
    Held,
    Frozen,
    Matched(Matched),
    Lifted { receipts: usize },
    Refused(Refusal),
}

// The answer to an instruction that was carried out or refused.
impl From<Result<Effect, Refusal>> for Answer {
    ghost from_gives = { λ r a. a ≡ answer_of r };

    fn from(value: Result<Effect, Refusal>) -> Answer {
        match value {
            Ok(effect) => Answer::Done(effect),
            Err(refusal) => Answer::Refused(refusal),
        }
    }
}

// The answer to an instruction that waits or was refused.
impl From<Result<(), Refusal>> for Answer {
    ghost from_gives = { λ r a. a ≡ told_waiting r };

    fn from(value: Result<(), Refusal>) -> Answer {
        match value {
            Ok(()) => Answer::Held,
            Err(refusal) => Answer::Refused(refusal),
        }
    }
}
