// The orders of a book, one after another.
ghost use Rattle.std.specs.Prelude.{◌≡◌, List, length, drop};
ghost use Rattle.std.specs.Iterator.{YieldsFirstBy, item_count};
ghost use Rattle.orders.specs.Told.{terms_of};
ghost use Rattle.orders.specs.declared.terms.Terms.{Terms};
ghost use Rattle.book.specs.Lists.{Sound};

use crate::Book;
use orders::order::Order;
use std::marker::Model;
use std::ops::Range;

// The orders of a book that are still to be read, earliest first.
#[derive(Drop)]
pub struct Orders<'a, B: Book> {
    book: &'a B,
    places: Range<usize>,
}

// Clauses see the list of those orders.
impl<'a, B: Book> Model for Orders<'a, B> {
    ghost Value = { List Terms };

    ghost view = { λ o. drop o.places.start (B.orders o.book.now) };

    ghost invariant = { λ o. o.places.end ≡ length (B.orders o.book.now) };
}

impl<'a, B: Book> Iterator for Orders<'a, B> {
    type Item = Order;

    ghost next_gives = { YieldsFirstBy terms_of (λ left. left) };

    ghost remaining = { item_count (λ left. left) };

    fn next(&mut self) -> Option<Order> {
        let place = self.places.next()?;
        self.book.order_at(place)
    }
}

// The orders of a book, earliest first.
pub fn orders_of<B: Book>(book: &B) -> Orders<'_, B>
    ensures all { result ≡ B.Book.orders book.now }
    ensures sound { Sound (B.Book.orders book.now) }
{
    Orders {
        book,
        places: 0..book.count(),
    }
}
