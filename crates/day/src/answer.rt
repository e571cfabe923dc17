// The answers to the lines of a day, and the text of each.
ghost use Rattle.std.specs.Prelude.{◌≡◌, Some};
ghost use Rattle.day.specs.Answers.{fault_answer, effect_answer};
ghost use Rattle.day.specs.Texts.{text_of};
ghost use Rattle.day.specs.declared.answer.Answer.TheVariants.{Refused};

use book::open::OpenFigure;
use day_lines::fault::DayFault;
use instructions::effect::Effect;
use orders::refusal::Refusal;
use std::fmt;

#[derive(Clone, Copy, PartialEq, Eq, Debug)]
pub enum Answer {
    // the settings are accepted
    Ready,
    // the instruction is carried out
    Done(Effect),
    Refused(Refusal),
    // the text is wrong from this place on, counted from 1
    Bad { place: usize },
    // what is open at the end
    Open(OpenFigure),
}

impl From<Refusal> for Answer {
    ghost from_gives = { λ r a. a ≡ Refused r };

    fn from(value: Refusal) -> Answer {
        Answer::Refused(value)
    }
}

impl From<DayFault> for Answer {
    ghost from_gives = { λ f a. a ≡ fault_answer f };

    fn from(value: DayFault) -> Answer {
        match value {
            DayFault::Line(fault) => Answer::Bad {
                place: fault.place(),
            },
            DayFault::WrongPhase => Answer::Refused(Refusal::WrongPhase),
        }
    }
}

impl From<Result<Effect, Refusal>> for Answer {
    ghost from_gives = { λ r a. a ≡ effect_answer r };

    fn from(value: Result<Effect, Refusal>) -> Answer {
        match value {
            Ok(effect) => Answer::Done(effect),
            Err(refusal) => Answer::Refused(refusal),
        }
    }
}

impl fmt::Display for Answer {
    ghost output = { λ a. Some (text_of a) };

    fn fmt<W: fmt::Write>(&self, f: &mut fmt::Formatter<W>) -> fmt::Result {
        match *self {
            Answer::Ready => write!(f, "ready"),
            Answer::Done(Effect { added, taken_off }) => write!(f, "ok {added} {taken_off}"),
            Answer::Refused(refusal) => {
                let number = refusal.number();
                write!(f, "no {number}")
            }
            Answer::Bad { place } => {
                let number = Refusal::Text.number();
                write!(f, "bad {number} {place}")
            }
            Answer::Open(OpenFigure { orders, shares }) => write!(f, "open {orders} {shares}"),
        }
    }
}
