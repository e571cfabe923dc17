// An auction held over a store.
ghost use Rattle.std.specs.Prelude.{◌≡◌, ◌≤◌, length};
ghost use Rattle.orders.specs.Told.{grid_of};
ghost use Rattle.auction.specs.Answers.{AuctionHeld};
ghost use Rattle.auction.specs.Steps.{FilledAt, Ran};

use crate::auctioned::Auctioned;
use book::{Book, Store};
use orders::refusal::Refusal;
use orders::settings::Settings;
use pairing::fills::fill_orders;
use pricing::quote::MatchingQuote;
use pricing::trial::{TrialPrice, trial};
use settling::fill::Fill;
use settling::settle::settle;
use settling::stops::trigger_stops;

// Writes the fills at the price that was found, none without a price, and tells how many there are.
fn fill_at<B: Book>(book: &B, quote: MatchingQuote, found: TrialPrice, fills: &mut [Fill]) -> usize
    requires { length (B.Book.orders book.now) ≤ length fills.old }
    ensures { FilledAt quote.quote (B.Book.orders book.now) found fills.old result fills.new }
{
    match found {
        TrialPrice::Priced { price, .. } => fill_orders(book, quote, price, fills).unwrap_or(0),
        TrialPrice::Unpriced { .. } => 0,
    }
}

// Triggers stops, finds the price, writes the fills and settles them.
fn run<S: Store>(
    settings: Settings,
    store: &mut S,
    quote: MatchingQuote,
    fills: &mut [Fill],
) -> Auctioned
    requires { length (S.Book.orders store.old) ≤ length fills.old }
    ensures { Ran (grid_of settings).tick quote.quote (S.Store.room store.old) (S.Book.orders store.old) fills.old result (S.Store.room store.new) (S.Book.orders store.new) fills.new }
{
    let found = trial(settings, store, quote);
    trigger_stops(store, quote.quote());
    let count = fill_at(store, quote, found, fills);
    settle(store, &fills[0..count]);
    Auctioned {
        found,
        fills: count,
    }
}

// Holds an auction, if there are entries for as many fills as there are orders.
pub fn hold_auction<S: Store>(
    settings: Settings,
    store: &mut S,
    quote: MatchingQuote,
    fills: &mut [Fill],
) -> Result<Auctioned, Refusal>
    ensures { AuctionHeld (grid_of settings).tick quote.quote (S.Store.room store.old) (S.Book.orders store.old) fills.old result (S.Store.room store.new) (S.Book.orders store.new) fills.new }
{
    if fills.len() < store.count() {
        return Err(Refusal::FillEntries);
    }
    Ok(run(settings, store, quote, fills))
}
