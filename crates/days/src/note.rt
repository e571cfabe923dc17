// A call with its answer.
use crate::answer::Answer;
use crate::call::Call;

#[derive(Clone, Copy, PartialEq, Eq, Debug)]
pub struct Note {
    pub call: Call,
    pub answer: Answer,
}
