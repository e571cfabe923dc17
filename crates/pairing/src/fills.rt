// The fills of a book under a quote at a price.
ghost use Rattle.orders.specs.declared.terms.Side.TheVariants.{Buy, Sell};
ghost use Rattle.pairing.specs.Answers.{Filled};
ghost use Rattle.pairing.specs.Laws.{FillsAddUp, ByPriority};

use crate::pairs::pair;
use crate::priority::{Buying, Selling};
use crate::queue::Interests;
use book::Book;
use orders::refusal::Refusal;
use orders::terms::Side;
use pricing::quote::MatchingQuote;
use settling::fill::Fill;

// Writes the fills to the front of the array, and tells how many there are; the book stays as it is.
pub fn fill_orders<B: Book>(
    book: &B,
    quote: MatchingQuote,
    price: u32,
    fills: &mut [Fill],
) -> Result<usize, Refusal>
    ensures filled { Filled quote.quote (B.Book.orders book.now) price fills.old result fills.new }
    ensures adds_up { FillsAddUp quote.quote (B.Book.orders book.now) price }
    ensures buys_by_priority { ByPriority quote.quote (B.Book.orders book.now) price Buy }
    ensures sells_by_priority { ByPriority quote.quote (B.Book.orders book.now) price Sell }
{
    if fills.len() < book.count() {
        return Err(Refusal::FillEntries);
    }
    let buys = Interests::of(book, &Buying, quote, Side::Buy, price);
    let sells = Interests::of(book, &Selling, quote, Side::Sell, price);
    Ok(pair(price, &buys, &sells, fills))
}
