// What a match answers.
ghost use Rattle.std.specs.Prelude.{◌≡◌};
ghost use Rattle.engine.specs.Freezes.{matched_as};

use auction::auctioned::Auctioned;
use pricing::trial::TrialPrice;

// A price with its shares and its surplus, or none; and how many stops were triggered, fills and receipts written.
// It is an enum of two cases, as a trial price is (docs/DECISIONS.md).
#[derive(Clone, Copy, PartialEq, Eq, Debug)]
pub enum Matched {
    Priced {
        price: u32,
        shares: u32,
        surplus: i64,
        stops: usize,
        fills: usize,
        receipts: usize,
    },
    Unpriced {
        stops: usize,
        fills: usize,
        receipts: usize,
    },
}

impl Matched {
    // What an auction found, with how many receipts were written after it.
    pub(crate) fn new(auctioned: Auctioned, receipts: usize) -> Matched
        ensures { result ≡ matched_as auctioned.found auctioned.fills receipts }
    {
        let fills = auctioned.fills;
        match auctioned.found {
            TrialPrice::Priced {
                price,
                shares,
                surplus,
                stops,
            } => Matched::Priced {
                price,
                shares,
                surplus,
                stops,
                fills,
                receipts,
            },
            TrialPrice::Unpriced { stops } => Matched::Unpriced {
                stops,
                fills,
                receipts,
            },
        }
    }
}
