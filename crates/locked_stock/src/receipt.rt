// What is told of a held instruction once it is carried out.
use instructions::effect::Effect;
use orders::refusal::Refusal;

// The order number that the instruction named, and its answer.
#[derive(Clone, Copy, PartialEq, Eq, Debug)]
pub struct Receipt {
    pub number: u32,
    pub answer: Result<Effect, Refusal>,
}
