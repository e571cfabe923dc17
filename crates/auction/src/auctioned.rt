// What an auction answers.
use pricing::trial::TrialPrice;

// The price or none, with the count of stops, and how many fills were written.
#[derive(Clone, Copy, PartialEq, Eq, Debug)]
pub struct Auctioned {
    pub found: TrialPrice,
    pub fills: usize,
}
