// Fills settled in a book of three orders, sensible ones and others.
use crate::lists::{check_holds, enter};
use book::Store;
use chain_table::table::ChainTable;
use orders::terms::{Kind, Side, Terms};
use row_table::table::RowTable;
use settling::fill::Fill;
use settling::settle::settle;
use std::alloc::Global;
use std::process::Abort;
use std::test::Fail;
use test_orders::terms;

fn fill(buyer: u32, seller: u32, quantity: u32) -> Fill {
    Fill {
        buyer,
        seller,
        price: 1_000,
        quantity,
    }
}

fn buy(number: u32, quantity: u32) -> Terms {
    terms(number, Side::Buy, Kind::Limit { limit: 1_000 }, quantity)
}

fn sell(number: u32, quantity: u32) -> Terms {
    terms(number, Side::Sell, Kind::Market, quantity)
}

fn leaves<S: Store>(
    rt: &impl Abort,
    store: &mut S,
    fills: &[Fill],
    left: &[Terms],
) -> Result<(), Fail> {
    enter(store, &[buy(1, 10), sell(2, 20), buy(3, 30)])?;
    settle(store, fills);
    check_holds(rt, store, left)
}

fn check_left(rt: &impl Abort, heap: Global, fills: &[Fill], left: &[Terms]) -> Result<(), Fail> {
    let mut rows = RowTable::new(heap, 3)?;
    leaves(rt, &mut rows, fills, left)?;
    let mut chain = ChainTable::new(heap, 3)?;
    leaves(rt, &mut chain, fills, left)
}

#[test]
fn fills_are_taken_off(rt: HostRuntime) -> Result<(), Fail> {
    let heap = rt.alloc();
    check_left(&rt, heap, &[fill(1, 2, 10)], &[sell(2, 10), buy(3, 30)])?;
    check_left(
        &rt,
        heap,
        &[fill(3, 2, 5)],
        &[buy(1, 10), sell(2, 15), buy(3, 25)],
    )?;
    check_left(&rt, heap, &[fill(0, 2, 20)], &[buy(1, 10), buy(3, 30)])?;
    check_left(
        &rt,
        heap,
        &[fill(1, 2, 10), fill(3, 2, 10), fill(3, 0, 20)],
        &[],
    )
}

// Numbers that no order has, one number twice, more shares than are open, and none.
#[test]
fn senseless_fills_are_taken_off(rt: HostRuntime) -> Result<(), Fail> {
    let heap = rt.alloc();
    let all = [buy(1, 10), sell(2, 20), buy(3, 30)];
    check_left(&rt, heap, &[], &all)?;
    check_left(&rt, heap, &[fill(0, 0, 5), fill(9, 8, 5)], &all)?;
    check_left(&rt, heap, &[fill(1, 2, 0)], &all)?;
    check_left(
        &rt,
        heap,
        &[fill(1, 1, 4)],
        &[buy(1, 6), sell(2, 20), buy(3, 30)],
    )?;
    check_left(&rt, heap, &[fill(1, 2, 4_000_000_000)], &[buy(3, 30)])?;
    check_left(
        &rt,
        heap,
        &[fill(1, 2, 6), fill(1, 2, 6)],
        &[sell(2, 8), buy(3, 30)],
    )
}
