// The price and the fills, reckoned naively. The quote is two orders with the number 0 behind all others:
// a buy limited at the bid counts at the bid alone, a sell limited at the ask at the ask alone.
use crate::resting::Resting;
use orders::terms::Side;
use pricing::quote::Quote;
use settling::fill::Fill;
use std::alloc::Global;

fn quoted(side: Side, limit: u32, volume: u32) -> Resting {
    Resting {
        number: 0,
        participant: 0,
        side,
        limit: Some(limit),
        stop: None,
        open: volume,
    }
}

// The orders once the quote has come: triggered stops at the end, and behind them the quote itself.
pub(crate) fn under_quote(heap: Global, book: &[Resting], quote: Quote) -> Vec<Resting> {
    let mut orders = Vec::new(heap);
    for order in book {
        if !order.is_triggered(quote) {
            let _ = orders.push(*order);
        }
    }
    for order in book {
        if order.is_triggered(quote) {
            let _ = orders.push(Resting {
                stop: None,
                ..*order
            });
        }
    }
    let _ = orders.push(quoted(Side::Buy, quote.bid, quote.bid_volume));
    let _ = orders.push(quoted(Side::Sell, quote.ask, quote.ask_volume));
    orders
}

fn total(orders: &[Resting], side: Side, price: u32) -> i64 {
    let mut sum = 0i64;
    for order in orders {
        if order.side == side && order.counts_at(price) {
            sum = sum.saturating_add(i64::from(order.open));
        }
    }
    sum
}

pub(crate) fn surplus(orders: &[Resting], price: u32) -> i64 {
    total(orders, Side::Buy, price).saturating_sub(total(orders, Side::Sell, price))
}

pub(crate) fn shares(orders: &[Resting], price: u32) -> i64 {
    total(orders, Side::Buy, price).min(total(orders, Side::Sell, price))
}

// Is a price worse than another: fewer shares, or as many at a larger difference?
fn is_worse(orders: &[Resting], price: u32, other: u32) -> bool {
    let here = shares(orders, price);
    let there = shares(orders, other);
    let is_wider = surplus(orders, price).unsigned_abs() > surplus(orders, other).unsigned_abs();
    here < there || here == there && is_wider
}

// The level that an order makes: its limit, if it may trade and its limit lies from bid to ask.
fn level_of(order: Resting, quote: Quote) -> Option<u32> {
    match (order.limit, order.stop) {
        (Some(limit), None) if quote.bid <= limit && limit <= quote.ask => Some(limit),
        _ => None,
    }
}

fn is_best(orders: &[Resting], quote: Quote, price: u32) -> bool {
    for order in orders {
        if let Some(level) = level_of(*order, quote) {
            if is_worse(orders, price, level) {
                return false;
            }
        }
    }
    true
}

fn between(lowest: u32, highest: u32, tick: u32) -> u32 {
    let middle = lowest.saturating_add(highest) / 2;
    let past = middle.checked_rem(tick).unwrap_or(0);
    lowest.max(middle.saturating_sub(past))
}

// The price of orders under a quote, or none.
pub(crate) fn price_of(orders: &[Resting], quote: Quote, tick: u32) -> Option<u32> {
    let mut lowest = quote.ask;
    let mut highest = quote.bid;
    let mut least = i64::MAX;
    let mut most = i64::MIN;
    for order in orders {
        if let Some(level) = level_of(*order, quote) {
            if is_best(orders, quote, level) {
                lowest = lowest.min(level);
                highest = highest.max(level);
                least = least.min(surplus(orders, level));
                most = most.max(surplus(orders, level));
            }
        }
    }
    if shares(orders, lowest) == 0 {
        None
    } else if least > 0 {
        Some(highest)
    } else if most < 0 {
        Some(lowest)
    } else {
        Some(between(lowest, highest, tick))
    }
}

// The order of a side that is ahead of all that are open and count at a price.
fn foremost(orders: &[Resting], side: Side, price: u32) -> Option<Resting> {
    let mut first: Option<Resting> = None;
    for order in orders {
        if order.side == side && order.open > 0 && order.counts_at(price) {
            first = match first {
                Some(earlier) if !order.overtakes(earlier) => Some(earlier),
                _ => Some(*order),
            };
        }
    }
    first
}

fn take_off(orders: &mut [Resting], taken: Resting, quantity: u32) {
    for order in orders.iter_mut() {
        if order.number == taken.number && order.side == taken.side {
            order.open = order.open.saturating_sub(quantity);
        }
    }
}

// Puts a record into the entry at a place, if there is one.
pub(crate) fn put_at<T: Copy>(entries: &mut [T], place: usize, value: T) {
    if place < entries.len() {
        entries[place] = value;
    }
}

// Pair by pair the foremost buy and the foremost sell trade. Each pair fills one of them, so there are no more pairs than orders.
pub(crate) fn trade(orders: &mut [Resting], price: u32, fills: &mut [Fill]) -> usize {
    // counted by hand, since not each round makes a pair, and the count is the answer
    let mut count = 0usize;
    for _ in 0..orders.len() {
        let buy = foremost(orders, Side::Buy, price);
        let sell = foremost(orders, Side::Sell, price);
        if let (Some(buy), Some(sell)) = (buy, sell) {
            let quantity = buy.open.min(sell.open);
            take_off(orders, buy, quantity);
            take_off(orders, sell, quantity);
            let fill = Fill {
                buyer: buy.number,
                seller: sell.number,
                price,
                quantity,
            };
            put_at(fills, count, fill);
            count = count.saturating_add(1);
        }
    }
    count
}
