// Random calls of two stores.
use crate::lists::check_same;
use book::{Book, Store};
use chain_table::table::ChainTable;
use orders::order::Order;
use orders::terms::{Kind, Side};
use row_table::table::RowTable;
use std::process::Abort;
use std::test::Fail;
use test_orders::terms;
use test_random::Random;

fn append<A: Store, B: Store>(
    rt: &impl Abort,
    a: &mut A,
    b: &mut B,
    number: u32,
    quantity: u32,
) -> Result<(), Fail> {
    let order = Order::new(terms(number, Side::Buy, Kind::Market, quantity)).ok_or_else(
        || Fail::new("out of range"),
    )?;
    assert_eq!(rt; a.append(order), b.append(order));
    Ok(())
}

// For 400 calls most append, for 400 most take out, and so on.
fn same_answers<A: Store, B: Store>(
    rt: &impl Abort,
    a: &mut A,
    b: &mut B,
    start: u32,
) -> Result<(), Fail> {
    let numbers = a.capacity() as u32 * 3 / 2 + 2;
    let mut random = Random::new(start);
    for call in 0..2_400 {
        let filling = (call / 400) % 2 == 0;
        let number = random.up_to(numbers);
        let quantity = random.up_to(9);
        match random.below(8) {
            0 => assert_eq!(rt; a.lower(number, quantity), b.lower(number, quantity)),
            1 => assert_eq!(rt; a.take_out(number), b.take_out(number)),
            2 => append(rt, a, b, number, quantity)?,
            _ if filling => append(rt, a, b, number, quantity)?,
            _ => assert_eq!(rt; a.take_out(number), b.take_out(number)),
        }
        if call % 40 == 0 {
            check_same(rt, a, b);
        }
    }
    check_same(rt, a, b);
    Ok(())
}

#[test]
fn both_stores_answer_alike(rt: HostRuntime) -> Result<(), Fail> {
    for capacity in [1, 2, 64, 256] {
        let mut rows = RowTable::new(rt.alloc(), capacity)?;
        let mut chain = ChainTable::new(rt.alloc(), capacity)?;
        same_answers(&rt, &mut rows, &mut chain, 11)?;
    }
    Ok(())
}

// All rows are filled, emptied from both ends and from the middle, and filled again.
fn refilled<A: Store, B: Store>(rt: &impl Abort, a: &mut A, b: &mut B) -> Result<(), Fail> {
    for round in 0..3 {
        for number in 1..258 {
            append(rt, a, b, number, 5)?;
        }
        check_same(rt, a, b);
        for step in 0..257 {
            // forward, backward, and here and there
            let number = match round {
                0 => step + 1,
                1 => 257 - step,
                _ => step * 100 % 257 + 1,
            };
            assert_eq!(rt; a.take_out(number), b.take_out(number));
        }
        check_same(rt, a, b);
        for number in 1..258 {
            assert_eq!(rt; a.take_out(number), b.take_out(number));
        }
        assert_eq!(rt; a.count(), 0);
        assert_eq!(rt; b.count(), 0);
    }
    Ok(())
}

#[test]
fn filled_emptied_and_filled_again(rt: HostRuntime) -> Result<(), Fail> {
    for capacity in [1, 2, 64, 256] {
        let mut rows = RowTable::new(rt.alloc(), capacity)?;
        let mut chain = ChainTable::new(rt.alloc(), capacity)?;
        refilled(&rt, &mut rows, &mut chain)?;
    }
    Ok(())
}

#[test]
fn capacities_are_alike(rt: HostRuntime) -> Result<(), Fail> {
    for length in [0, 1, 255, 256, 257, usize::MAX] {
        let rows = RowTable::new(rt.alloc(), length)?;
        let chain = ChainTable::new(rt.alloc(), length)?;
        assert_eq!(rt; rows.capacity(), chain.capacity());
    }
    Ok(())
}
