// The search for an order by its number.
ghost use Rattle.std.specs.Prelude.{◌≡◌};
ghost use Rattle.std.specs.Option.{option_map};
ghost use Rattle.orders.specs.Told.{terms_of};
ghost use Rattle.book.specs.Lists.{found};

use crate::Book;
use crate::iter::orders_of;
use orders::order::Order;

// The order of a number, or none.
pub fn find<B: Book>(book: &B, number: u32) -> Option<Order>
    ensures { option_map terms_of result ≡ found number (B.Book.orders book.now) }
{
    orders_of(book).find(|order| order.terms().number == number)
}
