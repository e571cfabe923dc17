// What the tests share: a store filled with orders, and what a book holds.
use book::{Book, Store};
use orders::order::Order;
use orders::terms::Terms;
use std::process::Abort;
use std::test::Fail;

// Fills a store. Each test crate says its few lines on a book itself: shared, they would need contracts for how a test fails.
pub(crate) fn enter<S: Store>(store: &mut S, orders: &[Terms]) -> Result<(), Fail> {
    for terms in orders {
        let order = Order::new(*terms).ok_or_else(|| Fail::new("out of range"))?;
        store.append(order)?;
    }
    Ok(())
}

pub(crate) fn check_holds<B: Book>(
    rt: &impl Abort,
    book: &B,
    orders: &[Terms],
) -> Result<(), Fail> {
    assert_eq!(rt; book.count(), orders.len());
    for (place, terms) in orders.iter().enumerate() {
        let held = book.order_at(place).map(|order| order.terms());
        assert_eq!(rt; held, Some(*terms));
    }
    Ok(())
}
