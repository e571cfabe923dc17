// Random small books beside the naive reckonings.
use crate::fills::check_fills;
use crate::reckoning::Reckoning;
use crate::setting::trial;
use crate::share_by_share::share_by_share;
use orders::settings::Settings;
use orders::terms::{Kind, Side, Terms};
use pricing::quote::Quote;
use pricing::trial::TrialPrice;
use std::alloc::Global;
use std::process::Abort;
use std::test::Fail;
use test_orders::terms;
use test_random::Random;

fn random_order(random: &mut Random, number: u32, base: u32) -> Terms {
    let side = if random.below(2) == 0 {
        Side::Buy
    } else {
        Side::Sell
    };
    let limit = base.saturating_add(random.below(44));
    let stop = base.saturating_add(random.below(44));
    let kind = match random.below(6) {
        0 => Kind::Market,
        1 => Kind::StopMarket { stop },
        2 => Kind::StopLimit { limit, stop },
        _ => Kind::Limit { limit },
    };
    terms(number, side, kind, random.up_to(9))
}

// A quote of a width up to 40.
fn random_quote(random: &mut Random, tick: u32) -> Quote {
    let bid = 1_000u32.saturating_add(tick.saturating_mul(random.below(2)));
    Quote {
        bid,
        ask: bid.saturating_add(tick.saturating_mul(
            random
                .below(40)
                .checked_div(tick)
                .unwrap_or(0)
                .saturating_add(1),
        )),
        bid_volume: random.below(3).saturating_mul(random.below(5)),
        ask_volume: random.below(3).saturating_mul(random.below(5)),
    }
}

// At most 12 orders.
fn random_orders(heap: Global, random: &mut Random) -> Result<Vec<Terms>, Fail> {
    let mut orders = Vec::new(heap);
    for number in 0..random.below(13) {
        orders.push(random_order(random, number.saturating_add(1), 981))?;
    }
    Ok(orders)
}

fn one_price(rt: &impl Abort, heap: Global, random: &mut Random) -> Result<(), Fail> {
    let class = random.below(5);
    let tick = Settings::new(1, class)?.tick();
    let quote = random_quote(random, tick);
    let orders = random_orders(heap, random)?;
    let answer = trial(heap, class, quote, orders.as_slice())?;
    let reckoning = Reckoning {
        orders: orders.as_slice(),
        quote,
    };
    assert_eq!(rt; answer, reckoning.trial_price(tick));
    let shares = match answer {
        TrialPrice::Priced { shares, .. } => shares,
        TrialPrice::Unpriced { .. } => 0,
    };
    assert_eq!(rt; shares, reckoning.most_shares());
    Ok(())
}

// The fills at a price near the quote, and at the bid and the ask.
fn one_auction(rt: &impl Abort, heap: Global, random: &mut Random) -> Result<(), Fail> {
    let quote = random_quote(random, 1);
    let orders = random_orders(heap, random)?;
    for price in [quote.bid, quote.ask, random.below(50).saturating_add(990)] {
        let expected = share_by_share(heap, orders.as_slice(), &quote, price)?;
        check_fills(
            rt,
            heap,
            quote,
            price,
            orders.as_slice(),
            expected.as_slice(),
        )?;
    }
    Ok(())
}

#[test]
fn trial_price_is_the_reckoned_price(rt: HostRuntime) -> Result<(), Fail> {
    let mut random = Random::new(5);
    for _ in 0..4_000 {
        one_price(&rt, rt.alloc(), &mut random)?;
    }
    Ok(())
}

#[test]
fn fills_are_those_share_by_share(rt: HostRuntime) -> Result<(), Fail> {
    let mut random = Random::new(7);
    for _ in 0..2_000 {
        one_auction(&rt, rt.alloc(), &mut random)?;
    }
    Ok(())
}
