// How many orders were triggered, fills and receipts written, by the answer of a call.
ghost use Rattle.std.specs.Prelude.{◌≡◌};
ghost use Rattle.days.specs.Counts.{counts_in};

use crate::answer::Answer;
use engine::matched::Matched;

#[derive(Clone, Copy, PartialEq, Eq, Debug, Default)]
pub struct Counts {
    pub stops: usize,
    pub fills: usize,
    pub receipts: usize,
}

impl Answer {
    // The counts that an answer tells, 0 where it tells none.
    pub fn counts(self) -> Counts
        ensures { result ≡ counts_in self }
    {
        match self {
            Answer::Matched(
                Matched::Priced {
                    stops,
                    fills,
                    receipts,
                    ..
                }
                | Matched::Unpriced {
                    stops,
                    fills,
                    receipts,
                },
            ) => Counts {
                stops,
                fills,
                receipts,
            },
            Answer::Lifted { receipts } => Counts {
                receipts,
                ..Counts::default()
            },
            _ => Counts::default(),
        }
    }
}
