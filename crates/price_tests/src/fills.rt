// Fills by the rules of priority and pairing.
use crate::examples::{buy, quote, sell};
use crate::setting::book_of;
use orders::refusal::Refusal;
use orders::settings::Settings;
use orders::terms::{Kind, Side, Terms};
use pairing::fills::fill_orders;
use pricing::quote::{MatchingQuote, Quote};
use settling::fill::Fill;
use std::alloc::Global;
use std::process::Abort;
use std::test::Fail;
use test_orders::terms;

// What an entry holds before it is written.
const BLANK: Fill = Fill {
    buyer: 9,
    seller: 9,
    price: 9,
    quantity: 9,
};

// Fills a book into an array of the same length: the fills stand in front, and nothing else is written.
pub(crate) fn check_fills(
    rt: &impl Abort,
    heap: Global,
    quote: Quote,
    price: u32,
    orders: &[Terms],
    expected: &[Fill],
) -> Result<(), Fail> {
    let book = book_of(heap, orders)?;
    let matching = MatchingQuote::new(Settings::new(1, 0)?, quote)?;
    let mut entries = vec![in heap; BLANK; orders.len()]?;
    let count = fill_orders(&book, matching, price, entries.as_mut_slice())?;
    assert_eq!(rt; count, expected.len());
    assert!(rt; entries.as_slice().starts_with(expected));
    assert!(rt;
        entries
            .as_slice()
            .iter()
            .skip(expected.len())
            .all(|entry| *entry == BLANK)
    );
    Ok(())
}

fn fill(price: u32, buyer: u32, seller: u32, quantity: u32) -> Fill {
    Fill {
        buyer,
        seller,
        price,
        quantity,
    }
}

fn market(number: u32, side: Side, quantity: u32) -> Terms {
    terms(number, side, Kind::Market, quantity)
}

#[test]
fn market_then_limit_then_place(rt: HostRuntime) -> Result<(), Fail> {
    let buys = [
        buy(1, 5, 1_010),
        market(2, Side::Buy, 5),
        buy(3, 5, 1_020),
        buy(4, 5, 1_020),
        sell(5, 12, 1_000),
    ];
    let bought = [
        fill(1_000, 2, 5, 5),
        fill(1_000, 3, 5, 5),
        fill(1_000, 4, 5, 2),
    ];
    check_fills(&rt, rt.alloc(), quote(0, 0), 1_000, &buys, &bought)?;
    let sells = [
        sell(1, 4, 1_000),
        market(2, Side::Sell, 4),
        sell(3, 4, 990),
        buy(4, 10, 1_010),
    ];
    let sold = [
        fill(1_000, 4, 2, 4),
        fill(1_000, 4, 3, 4),
        fill(1_000, 4, 1, 2),
    ];
    check_fills(&rt, rt.alloc(), quote(0, 0), 1_000, &sells, &sold)
}

#[test]
fn rests_are_carried_on(rt: HostRuntime) -> Result<(), Fail> {
    let orders = [
        market(1, Side::Buy, 7),
        market(2, Side::Buy, 5),
        market(3, Side::Sell, 4),
        market(4, Side::Sell, 4),
        market(5, Side::Sell, 4),
    ];
    let expected = [
        fill(1_000, 1, 3, 4),
        fill(1_000, 1, 4, 3),
        fill(1_000, 2, 4, 1),
        fill(1_000, 2, 5, 4),
    ];
    check_fills(&rt, rt.alloc(), quote(0, 0), 1_000, &orders, &expected)
}

#[test]
fn quote_trades_last(rt: HostRuntime) -> Result<(), Fail> {
    let orders = [market(2, Side::Sell, 10), buy(1, 3, 990)];
    let expected = [fill(990, 1, 2, 3), fill(990, 0, 2, 4)];
    check_fills(&rt, rt.alloc(), quote(4, 0), 990, &orders, &expected)?;
    let lone = [market(1, Side::Buy, 10)];
    check_fills(
        &rt,
        rt.alloc(),
        quote(0, 9),
        1_030,
        &lone,
        &[fill(1_030, 1, 0, 9)],
    )?;
    check_fills(&rt, rt.alloc(), quote(9, 9), 1_000, &lone, &[])
}

#[test]
fn stops_are_not_filled(rt: HostRuntime) -> Result<(), Fail> {
    let orders = [
        market(1, Side::Buy, 5),
        terms(2, Side::Sell, Kind::StopMarket { stop: 990 }, 5),
    ];
    check_fills(&rt, rt.alloc(), quote(0, 0), 1_000, &orders, &[])
}

#[test]
fn a_short_array_is_refused(rt: HostRuntime) -> Result<(), Fail> {
    let book = book_of(
        rt.alloc(),
        &[market(1, Side::Buy, 5), market(2, Side::Sell, 5)],
    )?;
    let matching = MatchingQuote::new(Settings::new(1, 0)?, quote(0, 0))?;
    let mut entries = [BLANK; 1];
    assert_eq!(rt;
        fill_orders(&book, matching, 1_000, &mut entries).err(),
        Some(Refusal::FillEntries)
    );
    assert_eq!(rt; entries[0], BLANK);
    Ok(())
}
