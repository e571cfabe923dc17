// Random days beside the reckoning.
use crate::calls::{Answer, Call, Market};
use crate::engine_day::checked_day;
use engine::matched::Matched;
use orders::instruction::Instruction;
use orders::refusal::Refusal;
use orders::terms::{OrderType, Side};
use orders::ticket::Ticket;
use pricing::quote::Quote;
use std::alloc::Global;
use std::process::Abort;
use std::test::Fail;
use test_random::Random;

// Lots, tick classes and their ticks.
const GRIDS: [(u16, u32, u32); 4] = [(1, 0, 1), (7, 2, 5), (10, 3, 10), (100, 5, 50)];

// The capacities of books and of locked stocks.
const BOOKS: [usize; 4] = [1, 3, 64, 64];

const STOCKS: [usize; 4] = [1, 2, 64, 64];

// Prices lie above one of these; the second is near the highest price.
const LOW: u32 = 1_000;

const HIGH: u32 = 999_999_900;

fn one_in(random: &mut Random, many: u32) -> bool {
    random.below(many) == 0
}

fn market(random: &mut Random) -> Market {
    let (lot, class, tick) = GRIDS[random.below(4) as usize];
    Market {
        lot,
        class,
        tick,
        base: if one_in(random, 8) { HIGH } else { LOW },
        book_room: BOOKS[random.below(4) as usize],
        stock_room: STOCKS[random.below(4) as usize],
    }
}

fn price(random: &mut Random, market: Market) -> u32 {
    let steps = random.below(9);
    let right = market
        .base
        .saturating_add(market.tick.saturating_mul(steps));
    if !one_in(random, 40) {
        return right;
    }
    match random.below(4) {
        0 => 0,
        1 => right.saturating_add(1),
        2 => 1_000_000_000,
        _ => 1_000_000_050,
    }
}

fn quantity(random: &mut Random, market: Market) -> u32 {
    let lot = u32::from(market.lot);
    let right = lot.saturating_mul(random.up_to(6));
    if !one_in(random, 20) {
        return right;
    }
    match random.below(4) {
        0 => 0,
        1 => right.saturating_add(1),
        2 => 1_000_000,
        _ => 1_000_000u32.saturating_add(lot),
    }
}

// One of few order numbers.
fn number(random: &mut Random) -> u32 {
    if one_in(random, 40) {
        0
    } else {
        random.up_to(9)
    }
}

// An order number has mostly the same participant.
fn participant(random: &mut Random, number: u32) -> u16 {
    if one_in(random, 40) {
        return 0;
    }
    if number % 2 == 0 || one_in(random, 8) {
        7
    } else {
        8
    }
}

// A price if the order type has one, and now and then the other way round.
fn given(random: &mut Random, market: Market, is_wanted: bool) -> u32 {
    let is_wrong = one_in(random, 40);
    if is_wanted != is_wrong {
        price(random, market)
    } else {
        0
    }
}

fn ticket(random: &mut Random, market: Market) -> Ticket {
    let number = number(random);
    let is_buy = (number / 2) % 2 == 0;
    let is_other = one_in(random, 6);
    let side = if is_buy != is_other {
        Side::Buy
    } else {
        Side::Sell
    };
    let (order_type, has_limit, has_stop) = match random.below(8) {
        0 => (OrderType::Market, false, false),
        1 => (OrderType::StopMarket, false, true),
        2 => (OrderType::StopLimit, true, true),
        _ => (OrderType::Limit, true, false),
    };
    Ticket {
        number,
        participant: participant(random, number),
        side,
        order_type,
        quantity: quantity(random, market),
        limit: given(random, market, has_limit),
        stop: given(random, market, has_stop),
    }
}

fn volume(random: &mut Random, market: Market) -> u32 {
    if one_in(random, 2) {
        0
    } else {
        quantity(random, market)
    }
}

fn quote(random: &mut Random, market: Market) -> Quote {
    let bid = price(random, market);
    let width = market.tick.saturating_mul(random.below(7));
    Quote {
        bid,
        ask: bid.saturating_add(width),
        bid_volume: volume(random, market),
        ask_volume: volume(random, market),
    }
}

// Mostly enough entries.
fn entries(random: &mut Random) -> usize {
    let few = random.below(6) as usize;
    if one_in(random, 8) { few } else { 64 }
}

fn call(random: &mut Random, market: Market) -> Call {
    match random.below(18) {
        0 | 1 => Call::Send(Instruction::Change(ticket(random, market))),
        2 | 3 => {
            let number = number(random);
            Call::Send(Instruction::Delete {
                number,
                participant: participant(random, number),
            })
        }
        4 | 5 | 6 => Call::Freeze,
        7 | 8 | 9 | 10 => Call::Match {
            quote: quote(random, market),
            fills: entries(random),
            receipts: entries(random),
        },
        11 => Call::Lift {
            receipts: entries(random),
        },
        _ => Call::Send(Instruction::Enter(ticket(random, market))),
    }
}

// What the days have come to: the refusals, and how many auctions found a price.
#[derive(Drop)]
struct Reached {
    refusals: Vec<Refusal>,
    prices: u32,
}

impl Reached {
    fn note(&mut self, answers: &[Answer]) {
        for answer in answers {
            match *answer {
                Answer::Matched(Matched::Priced { .. }) => {
                    self.prices = self.prices.saturating_add(1);
                }
                // the phase has no such call
                Answer::Refused(Refusal::WrongPhase) => {}
                Answer::Refused(refusal) if !self.refusals.as_slice().contains(&refusal) => {
                    let _ = self.refusals.push(refusal);
                }
                _ => {}
            }
        }
    }
}

fn one_day(
    rt: &impl Abort,
    heap: Global,
    random: &mut Random,
    reached: &mut Reached,
) -> Result<(), Fail> {
    let market = market(random);
    let mut calls = Vec::new(heap);
    for _ in 0..40 {
        let _ = calls.push(call(random, market));
    }
    let _ = calls.push(Call::Lift { receipts: 64 });
    let day = checked_day(rt, heap, market, calls.as_slice())?;
    reached.note(day.answers.as_slice());
    Ok(())
}

// Each refusal comes up that an instruction, a match or a lift can get: 1 to 9, 11, 12, 16 and 17.
#[test]
fn days_are_as_reckoned(rt: HostRuntime) -> Result<(), Fail> {
    let mut random = Random::new(17);
    let mut reached = Reached {
        refusals: Vec::new(rt.alloc()),
        prices: 0,
    };
    for _ in 0..6_000 {
        one_day(&rt, rt.alloc(), &mut random, &mut reached)?;
    }
    assert_eq!(rt; reached.refusals.len(), 13);
    assert!(rt; reached.prices > 5_000);
    Ok(())
}
