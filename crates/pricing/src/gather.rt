// The orders of a book, gathered in one pass.
ghost use Rattle.std.specs.Prelude.{◌≡◌};
ghost use Rattle.book.specs.Lists.{Sound};
ghost use Rattle.std.proofs.Props.{props};
ghost use Rattle.pricing.specs.Steps.{Bounded};
ghost use Rattle.pricing.specs.Stops.{staying_orders, triggered_orders, after_stops, stop_count};

use crate::quote::{MatchingQuote, Quote};
use crate::stops::made_ready;
use arrayvec::ArrayVec;
use book::Book;
use book::iter::orders_of;
use orders::capacity::MOST;
use orders::terms::Terms;

// Orders that stay in their places, and stops that a quote triggers, made ready.
#[derive(Drop)]
struct Parted {
    staying: ArrayVec<Terms, MOST>,
    triggered: ArrayVec<Terms, MOST>,
}

// The orders of a book, parted by the stops that a quote triggers.
fn part<B: Book>(book: &B, quote: Quote) -> Parted
    ensures staying { result.staying.items ≡ staying_orders quote (B.Book.orders book.now) }
    ensures triggered { result.triggered.items ≡ triggered_orders quote (B.Book.orders book.now) }
    ensures sound { Sound (B.Book.orders book.now) }
{
    let mut parted = Parted {
        staying: ArrayVec::new(),
        triggered: ArrayVec::new(),
    };
    for order in orders_of(book) {
        let terms = order.terms();
        if quote.triggers(terms) {
            parted.triggered.push(made_ready(terms));
        } else {
            parted.staying.push(terms);
        }
    }
    parted
}

// The orders that a quote triggers, in list order, as the market or limit orders that they become.
pub fn triggered_orders<B: Book>(book: &B, quote: Quote) -> ArrayVec<Terms, MOST>
    ensures { result.items ≡ triggered_orders quote (B.Book.orders book.now) }
{
    part(book, quote).triggered
}

// The orders of a book after the stops that a quote triggers, under this quote.
#[derive(Drop)]
pub(crate) struct Crossing {
    pub(crate) quote: MatchingQuote,
    pub(crate) orders: ArrayVec<Terms, MOST>,
    // how many stops were triggered
    pub(crate) stops: usize,
    ghost bounded: { Bounded orders.items } by { Prim.hlevel props },
}

// Reads a book once, and triggers its stops.
#[tactic(auto, using(crate::proofs::Bounding::parts_length, crate::proofs::Bounding::triggered_length, crate::proofs::Bounding::after_bounded))]
pub(crate) fn cross<B: Book>(book: &B, quote: MatchingQuote) -> Crossing
    ensures quote { result.quote ≡ quote }
    ensures orders { result.orders.items ≡ after_stops quote.quote (B.Book.orders book.now) }
    ensures stops { result.stops ≡ stop_count quote.quote (B.Book.orders book.now) }
{
    let Parted {
        staying: mut orders,
        triggered,
    } = part(book, quote.quote);
    // there is room: both lists together are as long as the book
    orders.try_extend_from_slice(triggered.as_slice()).unwrap();
    Crossing {
        quote,
        orders,
        stops: triggered.len(),
    }
}
