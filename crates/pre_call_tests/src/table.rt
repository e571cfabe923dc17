// The row table as a store.
use book::find::find;
use book::open::{OpenFigure, open_figure};
use book::{Book, Store};
use orders::order::Order;
use orders::refusal::Refusal;
use orders::terms::{Kind, Side, Terms};
use row_table::table::RowTable;
use std::process::Abort;
use std::test::*;
use test_orders::terms;

fn order(number: u32, quantity: u32) -> Result<Order, Fail> {
    let kind = Kind::Limit { limit: 3 };
    Order::new(terms(number, Side::Sell, kind, quantity)).ok_or_else(|| Fail::new("out of range"))
}

// The book holds these numbers with these open quantities, in this sequence.
// Said here and not shared: a shared one would need a contract for how a test fails.
fn check_book<B: Book>(rt: &impl Abort, book: &B, expected: &[(u32, u32)]) -> Result<(), Fail> {
    assert_eq!(rt; book.count(), expected.len());
    for (place, (number, quantity)) in expected.iter().enumerate() {
        assert_eq!(rt; book.order_at(place), Some(order(*number, *quantity)?));
    }
    assert!(rt; book.order_at(expected.len()).is_none());
    Ok(())
}

#[test]
fn capacity_of_a_length(rt: HostRuntime) -> Result<(), Fail> {
    for (length, capacity) in [(0, 0), (1, 1), (256, 256), (257, 256), (usize::MAX, 256)] {
        assert_eq!(rt; RowTable::new(rt.alloc(), length)?.capacity(), capacity);
    }
    Ok(())
}

#[test]
fn orders_out_of_range(rt: HostRuntime) -> Result<(), Fail> {
    let right = Terms {
        number: 1,
        participant: 1,
        side: Side::Buy,
        kind: Kind::StopLimit {
            limit: 1,
            stop: 1_000_000_000,
        },
        quantity: 1_000_000,
    };
    assert!(rt; Order::new(right).is_some());
    for wrong in [
        Terms { number: 0, ..right },
        Terms {
            participant: 0,
            ..right
        },
        Terms {
            quantity: 0,
            ..right
        },
        Terms {
            quantity: 1_000_001,
            ..right
        },
        Terms {
            kind: Kind::Limit { limit: 0 },
            ..right
        },
        Terms {
            kind: Kind::StopMarket {
                stop: 1_000_000_001,
            },
            ..right
        },
        Terms {
            kind: Kind::StopLimit { limit: 0, stop: 1 },
            ..right
        },
        Terms {
            kind: Kind::StopLimit { limit: 1, stop: 0 },
            ..right
        },
    ] {
        assert!(rt; Order::new(wrong).is_none());
    }
    Ok(())
}

#[test]
fn appended_and_taken_out(rt: HostRuntime) -> Result<(), Fail> {
    let mut table = RowTable::new(rt.alloc(), 3)?;
    table.append(order(5, 50)?)?;
    table.append(order(6, 60)?)?;
    assert_eq!(rt; table.append(order(5, 1)?).err(), Some(Refusal::NumberHeld));
    table.append(order(7, 70)?)?;
    assert_eq!(rt; table.append(order(8, 80)?).err(), Some(Refusal::BookFull));
    assert_eq!(rt; table.append(order(6, 1)?).err(), Some(Refusal::NumberHeld));
    check_book(&rt, &table, &[(5, 50), (6, 60), (7, 70)])?;
    assert!(rt; table.take_out(9).is_none());
    check_book(&rt, &table, &[(5, 50), (6, 60), (7, 70)])?;
    assert_eq!(rt; table.take_out(6), Some(order(6, 60)?));
    check_book(&rt, &table, &[(5, 50), (7, 70)])?;
    table.append(order(8, 80)?)?;
    check_book(&rt, &table, &[(5, 50), (7, 70), (8, 80)])
}

#[test]
fn lowered(rt: HostRuntime) -> Result<(), Fail> {
    let mut table = RowTable::new(rt.alloc(), 2)?;
    table.append(order(5, 50)?)?;
    table.append(order(6, 60)?)?;
    assert!(rt; !table.lower(5, 0));
    assert!(rt; !table.lower(5, 51));
    assert!(rt; !table.lower(7, 1));
    check_book(&rt, &table, &[(5, 50), (6, 60)])?;
    assert!(rt; table.lower(5, 50));
    assert!(rt; table.lower(5, 49));
    assert!(rt; table.lower(6, 1));
    check_book(&rt, &table, &[(5, 49), (6, 1)])
}

#[test]
fn full_at_256(rt: HostRuntime) -> Result<(), Fail> {
    let mut table = RowTable::new(rt.alloc(), 256)?;
    for number in 1..257 {
        table.append(order(number, 1_000_000)?)?;
    }
    assert_eq!(rt; table.append(order(257, 1)?).err(), Some(Refusal::BookFull));
    let expected = OpenFigure {
        orders: 256,
        shares: 256_000_000,
    };
    assert_eq!(rt; open_figure(&table), expected);
    assert!(rt; find(&table, 256).is_some());
    assert!(rt; find(&table, 257).is_none());
    Ok(())
}
