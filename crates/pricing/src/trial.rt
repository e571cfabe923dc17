// The trial price of a readable book.
ghost use Rattle.std.specs.Prelude.{◌≡◌, IfOk};
ghost use Rattle.orders.specs.Told.{grid_of};
ghost use Rattle.pricing.specs.Answers.{auction_of, trial_of, trial_answer};
ghost use Rattle.pricing.specs.Examples.{ExamplesHold};
ghost use Rattle.pricing.specs.Law.{Fair};
ghost use Rattle.pricing.specs.Stops.{after_stops};

use crate::gather::{Crossing, cross};
use crate::quote::{MatchingQuote, Quote};
use book::Book;
use orders::refusal::Refusal;
use orders::settings::Settings;
use orders::terms::Side;

// The answer is one of two: a price with its shares and its surplus, which is demand less supply, or no price. Beside either stands how many stops were triggered.
#[derive(Clone, Copy, PartialEq, Eq, Debug)]
pub enum TrialPrice {
    Priced {
        price: u32,
        shares: u32,
        surplus: i64,
        stops: usize,
    },
    Unpriced {
        stops: usize,
    },
}

impl Crossing {
    // The price, or none.
    fn price(&self, settings: Settings) -> TrialPrice
        ensures value { result ≡ auction_of (grid_of settings).tick self.now.quote.quote self.now.orders.items self.now.stops }
        ensures fair { Fair self.now.quote.quote self.now.orders.items result }
    {
        let stops = self.stops;
        let best = self.best();
        if best.shares == 0 {
            return TrialPrice::Unpriced { stops };
        }
        let price = best.price(settings);
        let demand = self.depth_at(Side::Buy, price);
        let supply = self.depth_at(Side::Sell, price);
        TrialPrice::Priced {
            price,
            shares: demand.min(supply),
            surplus: demand as i64 - supply as i64,
            stops,
        }
    }
}

// The price that a match under a quote that is taken would find, or none; the book stays as it is.
pub fn trial<B: Book>(settings: Settings, book: &B, quote: MatchingQuote) -> TrialPrice
    ensures value { result ≡ trial_of (grid_of settings).tick quote.quote (B.Book.orders book.now) }
    ensures fair { Fair quote.quote (after_stops quote.quote (B.Book.orders book.now)) result }
{
    cross(book, quote).price(settings)
}

// The price that a match under this quote would find, or none; the book stays as it is.
pub fn trial_price<B: Book>(
    settings: Settings,
    book: &B,
    quote: Quote,
) -> Result<TrialPrice, Refusal>
    ensures value { result ≡ trial_answer (grid_of settings) quote (B.Book.orders book.now) }
    ensures fair { IfOk result (Fair quote (after_stops quote (B.Book.orders book.now))) }
    ensures examples { ExamplesHold }
{
    let matching = MatchingQuote::new(settings, quote)?;
    Ok(trial(settings, book, matching))
}
