// The book over saved bytes as a readable book.
ghost use Rattle.saved_book.specs.Meaning.{orders_read};

use crate::saved::SavedBook;
use book::Book;
use orders::order::Order;

impl Book for SavedBook<'_> {
    ghost orders = { orders_read };

    fn count(&self) -> usize {
        self.layout.count
    }

    fn order_at(&self, place: usize) -> Option<Order> {
        self.order(place)
    }
}
