// The worked examples, and the mistakes that the rules shut out. Each runs over both stores and in the reckoning.
use crate::calls::{Answer, Call, Market, NO_FILL, NO_RECEIPT};
use crate::engine_day::checked_day;
use crate::resting::Resting;
use engine::matched::Matched;
use instructions::effect::Effect;
use locked_stock::receipt::Receipt;
use orders::instruction::Instruction;
use orders::refusal::Refusal;
use orders::terms::{OrderType, Side};
use orders::ticket::Ticket;
use pricing::quote::Quote;
use settling::fill::Fill;
use std::alloc::Global;
use std::process::Abort;
use std::test::Fail;

fn market(book_room: usize, stock_room: usize) -> Market {
    Market {
        lot: 1,
        class: 0,
        tick: 1,
        base: 1_000,
        book_room,
        stock_room,
    }
}

fn enter(number: u32, participant: u16, side: Side, quantity: u32, limit: u32) -> Call {
    Call::Send(Instruction::Enter(Ticket {
        number,
        participant,
        side,
        order_type: OrderType::Limit,
        quantity,
        limit,
        stop: 0,
    }))
}

// A stop buy of participant 9 for 5 shares.
fn enter_stop(number: u32, stop: u32) -> Call {
    Call::Send(Instruction::Enter(Ticket {
        number,
        participant: 9,
        side: Side::Buy,
        order_type: OrderType::StopMarket,
        quantity: 5,
        limit: 0,
        stop,
    }))
}

// A limited sell of participant 8.
fn sell(number: u32, open: u32, limit: u32) -> Resting {
    Resting {
        number,
        participant: 8,
        side: Side::Sell,
        limit: Some(limit),
        stop: None,
        open,
    }
}

fn delete(number: u32, participant: u16) -> Call {
    Call::Send(Instruction::Delete {
        number,
        participant,
    })
}

// A match from 990 to 1,030 with a volume at the ask.
fn match_with(ask_volume: u32, fills: usize, receipts: usize) -> Call {
    Call::Match {
        quote: Quote {
            bid: 990,
            ask: 1_030,
            bid_volume: 0,
            ask_volume,
        },
        fills,
        receipts,
    }
}

fn priced(price: u32, shares: u32, surplus: i64, fills: usize, receipts: usize) -> Answer {
    Answer::Matched(Matched::Priced {
        price,
        shares,
        surplus,
        stops: 0,
        fills,
        receipts,
    })
}

fn done(added: u32, taken_off: u32) -> Answer {
    Answer::Done(Effect { added, taken_off })
}

fn fill(buyer: u32, seller: u32, price: u32, quantity: u32) -> Fill {
    Fill {
        buyer,
        seller,
        price,
        quantity,
    }
}

fn receipt(number: u32, added: u32, taken_off: u32) -> Receipt {
    Receipt {
        number,
        answer: Ok(Effect { added, taken_off }),
    }
}

// All answers of a day, what stands in the first entries after it, and its book.
fn check_example(
    rt: &impl Abort,
    heap: Global,
    market: Market,
    calls: &[Call],
    answers: &[Answer],
    fills: &[Fill],
    receipts: &[Receipt],
    closing: &[Resting],
) -> Result<(), Fail> {
    let day = checked_day(rt, heap, market, calls)?;
    assert!(rt;
        day.answers.as_slice() == answers
            && day.fills.starts_with(fills)
            && day.receipts.starts_with(receipts)
            && day.book.as_slice() == closing
    );
    Ok(())
}

#[test]
fn worked_day(rt: HostRuntime) -> Result<(), Fail> {
    check_example(
        &rt,
        rt.alloc(),
        market(3, 2),
        &[
            enter(1, 7, Side::Buy, 100, 1_020),
            enter(2, 8, Side::Sell, 60, 1_000),
            Call::Freeze,
            delete(1, 7),
            match_with(50, 2, 2),
        ],
        &[
            done(100, 0),
            done(60, 0),
            Answer::Frozen,
            Answer::Held,
            priced(1_020, 60, 40, 1, 1),
        ],
        &[fill(1, 2, 1_020, 60), NO_FILL],
        &[receipt(1, 0, 40), NO_RECEIPT],
        &[],
    )
}

// A book of capacity 1 is full, its order is sold out in the match, and the order that was held finds room.
#[test]
fn room_after_a_match(rt: HostRuntime) -> Result<(), Fail> {
    check_example(
        &rt,
        rt.alloc(),
        market(1, 1),
        &[
            enter(1, 7, Side::Buy, 100, 1_030),
            enter(2, 8, Side::Sell, 60, 1_040),
            Call::Freeze,
            enter(2, 8, Side::Sell, 60, 1_040),
            match_with(100, 1, 1),
        ],
        &[
            done(100, 0),
            Answer::Refused(Refusal::BookFull),
            Answer::Frozen,
            Answer::Held,
            priced(1_030, 100, 0, 1, 1),
        ],
        &[fill(1, 0, 1_030, 100)],
        &[receipt(2, 60, 0)],
        &[sell(2, 60, 1_040)],
    )
}

// With a locked stock of 1 the second sound instruction gets 9, and one with a fault of its own gets that fault.
#[test]
fn locked_stock_of_one(rt: HostRuntime) -> Result<(), Fail> {
    assert_eq!(rt; Refusal::LockedStockFull.number(), 9);
    check_example(
        &rt,
        rt.alloc(),
        market(3, 1),
        &[
            Call::Freeze,
            enter(1, 8, Side::Sell, 100, 1_020),
            enter(2, 8, Side::Sell, 100, 1_020),
            enter(3, 8, Side::Sell, 0, 1_020),
            Call::Lift { receipts: 0 },
            Call::Lift { receipts: 1 },
        ],
        &[
            Answer::Frozen,
            Answer::Held,
            Answer::Refused(Refusal::LockedStockFull),
            Answer::Refused(Refusal::Quantity),
            Answer::Refused(Refusal::ReceiptEntries),
            Answer::Lifted(1),
        ],
        &[],
        &[receipt(1, 100, 0)],
        &[sell(1, 100, 1_020)],
    )
}

// Both trade in full although one of them was to be deleted, so the deletion finds no order.
#[test]
fn deletion_is_not_obeyed_in_a_freeze(rt: HostRuntime) -> Result<(), Fail> {
    let unknown = Receipt {
        number: 1,
        answer: Err(Refusal::NumberUnknown),
    };
    check_example(
        &rt,
        rt.alloc(),
        market(3, 2),
        &[
            enter(1, 7, Side::Buy, 10, 1_000),
            enter(2, 8, Side::Sell, 10, 1_000),
            Call::Freeze,
            delete(1, 7),
            match_with(0, 2, 2),
        ],
        &[
            done(10, 0),
            done(10, 0),
            Answer::Frozen,
            Answer::Held,
            priced(1_000, 10, 0, 1, 1),
        ],
        &[fill(1, 2, 1_000, 10), NO_FILL],
        &[unknown, NO_RECEIPT],
        &[],
    )
}

#[test]
fn buy_above_the_ask_is_filled(rt: HostRuntime) -> Result<(), Fail> {
    check_example(
        &rt,
        rt.alloc(),
        market(3, 2),
        &[
            enter(1, 7, Side::Buy, 5, 1_040),
            enter(2, 8, Side::Sell, 5, 1_030),
            Call::Freeze,
            match_with(0, 2, 2),
        ],
        &[
            done(5, 0),
            done(5, 0),
            Answer::Frozen,
            priced(1_030, 5, 0, 1, 0),
        ],
        &[fill(1, 2, 1_030, 5), NO_FILL],
        &[NO_RECEIPT],
        &[],
    )
}

// The price is 1,000. A stop buy at 1,030 triggers by the ask and trades first, one at 1,031 stays a stop.
#[test]
fn stops_trigger_by_the_quote_and_not_by_the_price(rt: HostRuntime) -> Result<(), Fail> {
    let matched = Matched::Priced {
        price: 1_000,
        shares: 65,
        surplus: -35,
        stops: 1,
        fills: 2,
        receipts: 0,
    };
    let stop = Resting {
        number: 4,
        participant: 9,
        side: Side::Buy,
        limit: None,
        stop: Some(1_031),
        open: 5,
    };
    check_example(
        &rt,
        rt.alloc(),
        market(64, 2),
        &[
            enter_stop(3, 1_030),
            enter_stop(4, 1_031),
            enter(1, 7, Side::Buy, 60, 1_020),
            enter(2, 8, Side::Sell, 100, 1_000),
            Call::Freeze,
            match_with(0, 4, 2),
        ],
        &[
            done(5, 0),
            done(5, 0),
            done(60, 0),
            done(100, 0),
            Answer::Frozen,
            Answer::Matched(matched),
        ],
        &[fill(3, 2, 1_000, 5), fill(1, 2, 1_000, 60), NO_FILL],
        &[NO_RECEIPT],
        &[stop, sell(2, 35, 1_000)],
    )
}
