// The worked examples, and the mistakes that the rules shut out.
use crate::setting::{book_of, trial};
use orders::refusal::Refusal;
use orders::settings::Settings;
use orders::terms::{Kind, Side, Terms};
use pricing::quote::Quote;
use pricing::trial::{TrialPrice, trial_price};
use std::test::Fail;
use test_orders::terms;

pub(crate) fn quote(bid_volume: u32, ask_volume: u32) -> Quote {
    Quote {
        bid: 990,
        ask: 1_030,
        bid_volume,
        ask_volume,
    }
}

pub(crate) fn buy(number: u32, quantity: u32, limit: u32) -> Terms {
    terms(number, Side::Buy, Kind::Limit { limit }, quantity)
}

pub(crate) fn sell(number: u32, quantity: u32, limit: u32) -> Terms {
    terms(number, Side::Sell, Kind::Limit { limit }, quantity)
}

fn priced(price: u32, shares: u32, surplus: i64) -> TrialPrice {
    TrialPrice::Priced {
        price,
        shares,
        surplus,
        stops: 0,
    }
}

#[test]
fn limits_cross(rt: HostRuntime) -> Result<(), Fail> {
    assert_eq!(rt;
        trial(
            rt.alloc(),
            0,
            quote(0, 0),
            &[buy(1, 60, 1_020), sell(2, 100, 1_000)],
        )?,
        priced(1_000, 60, -40)
    );
    assert_eq!(rt;
        trial(
            rt.alloc(),
            0,
            quote(0, 0),
            &[buy(1, 100, 1_020), sell(2, 100, 1_000)],
        )?,
        priced(1_010, 100, 0)
    );
    assert_eq!(rt;
        trial(
            rt.alloc(),
            3,
            quote(0, 0),
            &[buy(1, 100, 1_010), sell(2, 100, 1_000)],
        )?,
        priced(1_000, 100, 0)
    );
    let four = [
        buy(1, 50, 1_000),
        buy(2, 100, 1_020),
        sell(3, 100, 1_000),
        sell(4, 50, 1_020),
    ];
    assert_eq!(rt;
        trial(rt.alloc(), 0, quote(0, 0), &four)?,
        priced(1_010, 100, 0)
    );
    assert_eq!(rt;
        trial(
            rt.alloc(),
            0,
            quote(0, 0),
            &[buy(1, 5, 1_040), sell(2, 5, 1_035)],
        )?,
        TrialPrice::Unpriced { stops: 0 }
    );
    Ok(())
}

#[test]
fn quote_volumes_trade(rt: HostRuntime) -> Result<(), Fail> {
    let market_buy = [terms(1, Side::Buy, Kind::Market, 10)];
    assert_eq!(rt;
        trial(rt.alloc(), 0, quote(0, 9), &market_buy)?,
        priced(1_030, 9, 1)
    );
    assert_eq!(rt;
        trial(rt.alloc(), 0, quote(0, 0), &market_buy)?,
        TrialPrice::Unpriced { stops: 0 }
    );
    let market_sell = [terms(1, Side::Sell, Kind::Market, 10), buy(2, 5, 980)];
    assert_eq!(rt;
        trial(rt.alloc(), 0, quote(4, 0), &market_sell)?,
        priced(990, 4, -6)
    );
    Ok(())
}

#[test]
fn stops_at_the_bid(rt: HostRuntime) -> Result<(), Fail> {
    let stops = [
        terms(1, Side::Sell, Kind::StopMarket { stop: 990 }, 5),
        terms(2, Side::Sell, Kind::StopMarket { stop: 989 }, 5),
    ];
    assert_eq!(rt;
        trial(rt.alloc(), 0, quote(0, 0), &stops)?,
        TrialPrice::Unpriced { stops: 1 }
    );
    Ok(())
}

#[test]
fn buy_above_the_ask_counts(rt: HostRuntime) -> Result<(), Fail> {
    assert_eq!(rt;
        trial(
            rt.alloc(),
            0,
            quote(0, 0),
            &[buy(1, 5, 1_040), sell(2, 5, 1_030)],
        )?,
        priced(1_030, 5, 0)
    );
    Ok(())
}

// The price is 1,000; a stop buy at 1,030 triggers by the ask, and one at 1,031 by nothing.
#[test]
fn stops_trigger_by_the_quote_and_not_by_the_price(rt: HostRuntime) -> Result<(), Fail> {
    let orders = [
        buy(1, 60, 1_020),
        sell(2, 100, 1_000),
        terms(
            3,
            Side::Buy,
            Kind::StopLimit {
                limit: 995,
                stop: 1_030,
            },
            5,
        ),
        terms(4, Side::Buy, Kind::StopMarket { stop: 1_031 }, 5),
    ];
    let expected = TrialPrice::Priced {
        price: 1_000,
        shares: 60,
        surplus: -40,
        stops: 1,
    };
    assert_eq!(rt; trial(rt.alloc(), 0, quote(0, 0), &orders)?, expected);
    Ok(())
}

#[test]
fn volumes_do_not_trigger(rt: HostRuntime) -> Result<(), Fail> {
    let stop = [terms(1, Side::Sell, Kind::StopMarket { stop: 989 }, 5)];
    for volume in [0, 1, 1_000_000] {
        assert_eq!(rt;
            trial(rt.alloc(), 0, quote(volume, volume), &stop)?,
            TrialPrice::Unpriced { stops: 0 }
        );
    }
    Ok(())
}

#[test]
fn quotes_are_checked(rt: HostRuntime) -> Result<(), Fail> {
    let book = book_of(rt.alloc(), &[])?;
    let settings = Settings::new(10, 3)?;
    let right = Quote {
        bid: 990,
        ask: 1_030,
        bid_volume: 10,
        ask_volume: 1_000_000,
    };
    assert!(rt; trial_price(settings, &book, right).is_ok());
    for wrong in [
        Quote {
            bid: 1_030,
            ..right
        },
        Quote {
            bid: 1_040,
            ..right
        },
        Quote { bid: 0, ..right },
        Quote { bid: 995, ..right },
        Quote {
            ask: 1_035,
            bid_volume: 5,
            ..right
        },
        Quote {
            ask: 1_000_000_010,
            ..right
        },
    ] {
        assert_eq!(rt;
            trial_price(settings, &book, wrong).err(),
            Some(Refusal::QuotePrices)
        );
    }
    for wrong in [
        Quote {
            bid_volume: 5,
            ..right
        },
        Quote {
            bid_volume: 1_000_010,
            ..right
        },
        Quote {
            ask_volume: 1,
            ..right
        },
        Quote {
            ask_volume: 4_294_967_290,
            ..right
        },
    ] {
        assert_eq!(rt;
            trial_price(settings, &book, wrong).err(),
            Some(Refusal::QuoteVolumes)
        );
    }
    Ok(())
}
