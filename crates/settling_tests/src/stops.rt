// Stops triggered in stores that are full.
use crate::lists::{check_holds, enter};
use book::Store;
use chain_table::table::ChainTable;
use orders::terms::{Kind, Side};
use pricing::quote::Quote;
use row_table::table::RowTable;
use settling::stops::trigger_stops;
use std::process::Abort;
use std::test::Fail;
use test_orders::terms;

// Orders 2, 3 and 6 trigger; 4 and 5 miss the bid and the ask by one.
fn triggers_three<S: Store>(rt: &impl Abort, store: &mut S) -> Result<(), Fail> {
    let stays = [
        terms(1, Side::Buy, Kind::Limit { limit: 1_000 }, 5),
        terms(4, Side::Sell, Kind::StopMarket { stop: 989 }, 5),
        terms(5, Side::Buy, Kind::StopMarket { stop: 1_031 }, 5),
        terms(7, Side::Sell, Kind::Market, 5),
    ];
    let stop_sell = terms(2, Side::Sell, Kind::StopMarket { stop: 990 }, 10);
    let stop_buy = Kind::StopLimit {
        limit: 995,
        stop: 1_030,
    };
    let high_sell = Kind::StopLimit {
        limit: 1,
        stop: 5_000,
    };
    let before = [
        stays[0],
        stop_sell,
        terms(3, Side::Buy, stop_buy, 20),
        stays[1],
        stays[2],
        terms(6, Side::Sell, high_sell, 30),
        stays[3],
    ];
    let after = [
        stays[0],
        stays[1],
        stays[2],
        stays[3],
        terms(2, Side::Sell, Kind::Market, 10),
        terms(3, Side::Buy, Kind::Limit { limit: 995 }, 20),
        terms(6, Side::Sell, Kind::Limit { limit: 1 }, 30),
    ];
    let quote = Quote {
        bid: 990,
        ask: 1_030,
        bid_volume: 0,
        ask_volume: 0,
    };
    enter(store, &before)?;
    assert_eq!(rt; trigger_stops(store, quote), 3);
    check_holds(rt, store, &after)?;
    assert_eq!(rt; trigger_stops(store, quote), 0);
    check_holds(rt, store, &after)
}

#[test]
fn stops_go_to_the_end(rt: HostRuntime) -> Result<(), Fail> {
    let mut rows = RowTable::new(rt.alloc(), 7)?;
    triggers_three(&rt, &mut rows)?;
    let mut chain = ChainTable::new(rt.alloc(), 7)?;
    triggers_three(&rt, &mut chain)
}
