// Each refusal of each instruction, which wins where several apply, and what is accepted.
use book::{Book, Store};
use engine::pre_call::PreCall;
use instructions::effect::Effect;
use orders::refusal::Refusal;
use orders::settings::Settings;
use orders::terms::{OrderType, Side};
use orders::ticket::Ticket;
use row_table::table::RowTable;
use std::alloc::Global;
use std::process::Abort;
use std::test::*;

// Participant 7 buys at a limit.
fn buy(number: u32, quantity: u32, limit: u32) -> Ticket {
    Ticket {
        number,
        participant: 7,
        side: Side::Buy,
        order_type: OrderType::Limit,
        quantity,
        limit,
        stop: 0,
    }
}

fn of_type(order_type: OrderType, limit: u32, stop: u32) -> Ticket {
    Ticket {
        order_type,
        limit,
        stop,
        ..buy(9, 10, 0)
    }
}

fn added(shares: u32) -> Result<Effect, Refusal> {
    Ok(Effect {
        added: shares,
        taken_off: 0,
    })
}

fn taken_off(shares: u32) -> Result<Effect, Refusal> {
    Ok(Effect {
        added: 0,
        taken_off: shares,
    })
}

// A phase and a book, and instructions sent with the answer that is expected.
#[derive(Drop)]
struct Market {
    phase: PreCall,
    book: RowTable,
}

impl Market {
    fn new(heap: Global, lot: u16, class: u32, capacity: usize) -> Result<Market, Fail> {
        Ok(Market {
            phase: PreCall::new(Settings::new(lot, class)?),
            book: RowTable::new(heap, capacity)?,
        })
    }

    // Lot 10 and tick 10, and a book of 3 with order 1 of participant 7: a buy of 100 at 1,020.
    fn with_order_1(rt: &impl Abort, heap: Global) -> Result<Market, Fail> {
        let mut market = Market::new(heap, 10, 3, 3)?;
        market.enter(rt, buy(1, 100, 1_020), added(100))?;
        Ok(market)
    }

    // One for each of the three calls: each is tried by itself.
    fn enter(
        &mut self,
        rt: &impl Abort,
        ticket: Ticket,
        expected: Result<Effect, Refusal>,
    ) -> Result<(), Fail> {
        assert_eq!(rt; self.phase.enter(&mut self.book, ticket), expected);
        Ok(())
    }

    fn change(
        &mut self,
        rt: &impl Abort,
        ticket: Ticket,
        expected: Result<Effect, Refusal>,
    ) -> Result<(), Fail> {
        assert_eq!(rt; self.phase.change(&mut self.book, ticket), expected);
        Ok(())
    }

    fn delete(
        &mut self,
        rt: &impl Abort,
        number: u32,
        participant: u16,
        expected: Result<Effect, Refusal>,
    ) -> Result<(), Fail> {
        assert_eq!(rt;
            self.phase.delete(&mut self.book, number, participant),
            expected
        );
        Ok(())
    }

    // The book holds these numbers, in this sequence.
    fn holds(&self, rt: &impl Abort, numbers: &[u32]) -> Result<(), Fail> {
        assert_eq!(rt; self.book.count(), numbers.len());
        for (place, number) in numbers.iter().enumerate() {
            let Some(order) = self.book.order_at(place) else {
                return Err(Fail::new("no order"));
            };
            assert_eq!(rt; order.terms().number, *number);
        }
        Ok(())
    }
}

#[test]
fn identity_comes_first(rt: HostRuntime) -> Result<(), Fail> {
    let mut market = Market::with_order_1(&rt, rt.alloc())?;
    let nobody = Ticket {
        participant: 0,
        ..buy(1, 5, 5)
    };
    market.enter(&rt, buy(0, 5, 5), Err(Refusal::Identity))?;
    market.enter(&rt, nobody, Err(Refusal::Identity))?;
    market.change(&rt, buy(0, 5, 5), Err(Refusal::Identity))?;
    market.change(&rt, nobody, Err(Refusal::Identity))?;
    market.delete(&rt, 0, 7, Err(Refusal::Identity))?;
    market.delete(&rt, 1, 0, Err(Refusal::Identity))?;
    market.holds(&rt, &[1])
}

#[test]
fn quantity_comes_before_price(rt: HostRuntime) -> Result<(), Fail> {
    let mut market = Market::with_order_1(&rt, rt.alloc())?;
    for quantity in [0, 1, 5, 15, 999_999, 1_000_001, 1_000_010, 4_294_967_290] {
        market.enter(&rt, buy(1, quantity, 5), Err(Refusal::Quantity))?;
        market.change(&rt, buy(2, quantity, 5), Err(Refusal::Quantity))?;
    }
    market.enter(&rt, buy(2, 1_000_000, 10), added(1_000_000))?;
    market.enter(&rt, buy(3, 10, 1_000_000_000), added(10))
}

#[test]
fn prices_of_each_type(rt: HostRuntime) -> Result<(), Fail> {
    let mut market = Market::with_order_1(&rt, rt.alloc())?;
    let wrong = [
        of_type(OrderType::Market, 10, 0),
        of_type(OrderType::Market, 0, 10),
        of_type(OrderType::Limit, 0, 0),
        of_type(OrderType::Limit, 15, 0),
        of_type(OrderType::Limit, 1_000_000_010, 0),
        of_type(OrderType::Limit, 10, 10),
        of_type(OrderType::StopMarket, 0, 0),
        of_type(OrderType::StopMarket, 0, 15),
        of_type(OrderType::StopMarket, 0, 1_000_000_010),
        of_type(OrderType::StopMarket, 10, 10),
        of_type(OrderType::StopLimit, 0, 10),
        of_type(OrderType::StopLimit, 10, 0),
        of_type(OrderType::StopLimit, 15, 10),
        of_type(OrderType::StopLimit, 10, 15),
    ];
    for ticket in wrong {
        market.enter(&rt, ticket, Err(Refusal::Price))?;
        market.enter(
            &rt,
            Ticket {
                number: 1,
                ..ticket
            },
            Err(Refusal::Price),
        )?;
        market.change(&rt, ticket, Err(Refusal::Price))?;
    }
    let right = [
        of_type(OrderType::Market, 0, 0),
        of_type(OrderType::Limit, 10, 0),
        of_type(OrderType::StopMarket, 0, 10),
        of_type(OrderType::StopLimit, 10, 1_000_000_000),
    ];
    for ticket in right {
        market.enter(&rt, ticket, added(10))?;
        market.delete(&rt, 9, 7, taken_off(10))?;
    }
    Ok(())
}

#[test]
fn held_comes_before_full(rt: HostRuntime) -> Result<(), Fail> {
    let mut market = Market::with_order_1(&rt, rt.alloc())?;
    market.enter(&rt, buy(1, 10, 10), Err(Refusal::NumberHeld))?;
    market.enter(&rt, buy(2, 20, 10), added(20))?;
    market.enter(&rt, buy(3, 30, 10), added(30))?;
    market.enter(&rt, buy(1, 10, 10), Err(Refusal::NumberHeld))?;
    market.enter(&rt, buy(4, 10, 10), Err(Refusal::BookFull))?;
    market.holds(&rt, &[1, 2, 3])
}

#[test]
fn unknown_then_owner_then_form(rt: HostRuntime) -> Result<(), Fail> {
    let mut market = Market::with_order_1(&rt, rt.alloc())?;
    let sell = Ticket {
        side: Side::Sell,
        ..buy(1, 10, 10)
    };
    market.change(&rt, buy(2, 10, 10), Err(Refusal::NumberUnknown))?;
    market.delete(&rt, 2, 7, Err(Refusal::NumberUnknown))?;
    let of_another = Ticket {
        participant: 8,
        ..sell
    };
    market.change(&rt, of_another, Err(Refusal::OtherParticipant))?;
    market.delete(&rt, 1, 8, Err(Refusal::OtherParticipant))?;
    market.change(&rt, sell, Err(Refusal::SideOrKind))?;
    for other in [
        of_type(OrderType::Market, 0, 0),
        of_type(OrderType::StopMarket, 0, 10),
        of_type(OrderType::StopLimit, 10, 10),
    ] {
        market.change(&rt, Ticket { number: 1, ..other }, Err(Refusal::SideOrKind))?;
    }
    market.holds(&rt, &[1])
}

#[test]
fn change_goes_to_the_end(rt: HostRuntime) -> Result<(), Fail> {
    let mut market = Market::with_order_1(&rt, rt.alloc())?;
    market.enter(&rt, buy(2, 20, 10), added(20))?;
    market.change(&rt, buy(1, 130, 1_000), added(30))?;
    market.change(&rt, buy(1, 130, 1_010), added(0))?;
    market.change(&rt, buy(2, 10, 10), taken_off(10))?;
    market.holds(&rt, &[1, 2])?;
    market.delete(&rt, 1, 7, taken_off(130))?;
    market.delete(&rt, 1, 7, Err(Refusal::NumberUnknown))?;
    market.holds(&rt, &[2])
}

#[test]
fn book_of_one(rt: HostRuntime) -> Result<(), Fail> {
    let mut market = Market::new(rt.alloc(), 1, 0, 1)?;
    market.enter(&rt, buy(1, 5, 7), added(5))?;
    market.enter(&rt, buy(2, 5, 7), Err(Refusal::BookFull))?;
    market.enter(&rt, buy(1, 5, 7), Err(Refusal::NumberHeld))?;
    market.change(&rt, buy(1, 6, 8), added(1))?;
    market.delete(&rt, 1, 7, taken_off(6))?;
    market.enter(&rt, buy(2, 5, 7), added(5))
}
