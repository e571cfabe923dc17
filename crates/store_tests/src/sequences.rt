// Random instructions of pre-call over two stores.
use crate::lists::check_same;
use book::Store;
use chain_table::table::ChainTable;
use engine::pre_call::PreCall;
use orders::settings::Settings;
use orders::terms::{OrderType, Side};
use orders::ticket::Ticket;
use row_table::table::RowTable;
use std::process::Abort;
use std::test::Fail;
use test_random::Random;

fn ticket(random: &mut Random, numbers: u32) -> Ticket {
    let order_type = match random.below(4) {
        0 => OrderType::Market,
        1 => OrderType::StopMarket,
        _ => OrderType::Limit,
    };
    Ticket {
        number: random.below(numbers),
        participant: 7,
        side: if random.below(4) == 0 {
            Side::Sell
        } else {
            Side::Buy
        },
        order_type,
        quantity: random.below(30),
        limit: if matches!(order_type, OrderType::Limit) {
            random.below(50)
        } else {
            0
        },
        stop: if matches!(order_type, OrderType::StopMarket) {
            random.below(50)
        } else {
            0
        },
    }
}

fn same_answers<A: Store, B: Store>(rt: &impl Abort, phase: &PreCall, a: &mut A, b: &mut B) {
    let numbers = a.capacity() as u32 * 3 / 2 + 2;
    let mut random = Random::new(23);
    for call in 0..2_400 {
        let sent = ticket(&mut random, numbers);
        match random.below(4) {
            0 => assert_eq!(rt; phase.change(a, sent), phase.change(b, sent)),
            1 => assert_eq!(rt;
                phase.delete(a, sent.number, 7),
                phase.delete(b, sent.number, 7)
            ),
            _ => assert_eq!(rt; phase.enter(a, sent), phase.enter(b, sent)),
        }
        if call % 40 == 0 {
            check_same(rt, a, b);
        }
    }
    check_same(rt, a, b);
}

#[test]
fn instructions_over_both_stores(rt: HostRuntime) -> Result<(), Fail> {
    let phase = PreCall::new(Settings::new(1, 0)?);
    for capacity in [1, 2, 64, 256] {
        let mut rows = RowTable::new(rt.alloc(), capacity)?;
        let mut chain = ChainTable::new(rt.alloc(), capacity)?;
        same_answers(&rt, &phase, &mut rows, &mut chain);
    }
    Ok(())
}
