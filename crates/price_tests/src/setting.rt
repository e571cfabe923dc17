// A book filled for a test, and its trial price.
use book::{Book, Store};
use orders::order::Order;
use orders::settings::Settings;
use orders::terms::Terms;
use pricing::quote::Quote;
use pricing::trial::{TrialPrice, trial_price};
use row_table::table::RowTable;
use std::alloc::Global;
use std::test::Fail;

// Said here and not shared: a shared one would need a contract for how a test fails.
pub(crate) fn book_of(heap: Global, orders: &[Terms]) -> Result<RowTable, Fail> {
    let mut book = RowTable::new(heap, 256)?;
    for terms in orders {
        let order = Order::new(*terms).ok_or_else(|| Fail::new("out of range"))?;
        book.append(order)?;
    }
    Ok(book)
}

pub(crate) fn trial(
    heap: Global,
    class: u32,
    quote: Quote,
    orders: &[Terms],
) -> Result<TrialPrice, Fail> {
    let book = book_of(heap, orders)?;
    Ok(trial_price(Settings::new(1, class)?, &book, quote)?)
}
