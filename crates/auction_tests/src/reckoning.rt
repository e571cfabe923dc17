// A whole day, reckoned naively: lists that are gone through from end to end. Where memory is wanting a list is too short.
use crate::calls::{Answer, Call, ENTRIES, Market, NO_FILL, NO_RECEIPT};
use crate::price::{price_of, put_at, shares, surplus, trade, under_quote};
use crate::resting::Resting;
use engine::matched::Matched;
use instructions::effect::Effect;
use locked_stock::receipt::Receipt;
use orders::instruction::Instruction;
use orders::refusal::Refusal;
use orders::terms::OrderType;
use orders::ticket::Ticket;
use pricing::quote::Quote;
use settling::fill::Fill;
use std::alloc::Global;

fn is_multiple(number: u32, of: u32) -> bool {
    number.checked_rem(of) == Some(0)
}

fn is_quantity(market: Market, quantity: u32) -> bool {
    1 <= quantity && quantity <= 1_000_000 && is_multiple(quantity, u32::from(market.lot))
}

fn is_price(market: Market, price: u32) -> bool {
    1 <= price && price <= 1_000_000_000 && is_multiple(price, market.tick)
}

fn is_volume(market: Market, volume: u32) -> bool {
    volume == 0 || is_quantity(market, volume)
}

// A price that the type has is given and right; one that it lacks is 0.
fn is_right(market: Market, price: u32, is_wanted: bool) -> bool {
    if is_wanted {
        is_price(market, price)
    } else {
        price == 0
    }
}

// A ticket's own fields: neither its order number nor its participant is 0, its quantity is right, and so are its prices.
fn check_ticket(market: Market, ticket: Ticket) -> Result<(), Refusal> {
    let (has_limit, has_stop) = match ticket.order_type {
        OrderType::Market => (false, false),
        OrderType::Limit => (true, false),
        OrderType::StopMarket => (false, true),
        OrderType::StopLimit => (true, true),
    };
    if ticket.number == 0 || ticket.participant == 0 {
        return Err(Refusal::Identity);
    }
    if !is_quantity(market, ticket.quantity) {
        return Err(Refusal::Quantity);
    }
    if is_right(market, ticket.limit, has_limit) && is_right(market, ticket.stop, has_stop) {
        Ok(())
    } else {
        Err(Refusal::Price)
    }
}

fn check_fields(market: Market, instruction: Instruction<Ticket>) -> Result<(), Refusal> {
    match instruction {
        Instruction::Enter(ticket) | Instruction::Change(ticket) => check_ticket(market, ticket),
        Instruction::Delete {
            number,
            participant,
        } => {
            if number == 0 || participant == 0 {
                Err(Refusal::Identity)
            } else {
                Ok(())
            }
        }
    }
}

fn given(price: u32) -> Option<u32> {
    (price != 0).then_some(price)
}

fn resting(ticket: Ticket) -> Resting {
    Resting {
        number: ticket.number,
        participant: ticket.participant,
        side: ticket.side,
        limit: given(ticket.limit),
        stop: given(ticket.stop),
        open: ticket.quantity,
    }
}

fn find(book: &[Resting], number: u32) -> Option<Resting> {
    book.iter().find(|order| order.number == number).copied()
}

fn own(book: &[Resting], number: u32, participant: u16) -> Result<Resting, Refusal> {
    match find(book, number) {
        None => Err(Refusal::NumberUnknown),
        Some(order) => {
            if order.participant == participant {
                Ok(order)
            } else {
                Err(Refusal::OtherParticipant)
            }
        }
    }
}

fn enter_answer(book: &[Resting], room: usize, new: Resting) -> Result<Effect, Refusal> {
    if find(book, new.number).is_some() {
        return Err(Refusal::NumberHeld);
    }
    if book.len() >= room {
        return Err(Refusal::BookFull);
    }
    Ok(Effect {
        added: new.open,
        taken_off: 0,
    })
}

fn change_answer(book: &[Resting], new: Resting) -> Result<Effect, Refusal> {
    let old = own(book, new.number, new.participant)?;
    if old.side != new.side {
        return Err(Refusal::SideOrKind);
    }
    if old.limit.is_some() != new.limit.is_some() || old.stop.is_some() != new.stop.is_some() {
        return Err(Refusal::SideOrKind);
    }
    Ok(Effect {
        added: new.open.saturating_sub(old.open),
        taken_off: old.open.saturating_sub(new.open),
    })
}

// What an instruction answers whose own fields are right.
fn answer_of(
    book: &[Resting],
    room: usize,
    instruction: Instruction<Ticket>,
) -> Result<Effect, Refusal> {
    match instruction {
        Instruction::Enter(ticket) => enter_answer(book, room, resting(ticket)),
        Instruction::Change(ticket) => change_answer(book, resting(ticket)),
        Instruction::Delete {
            number,
            participant,
        } => Ok(Effect {
            added: 0,
            taken_off: own(book, number, participant)?.open,
        }),
    }
}

fn number_of(instruction: Instruction<Ticket>) -> u32 {
    match instruction {
        Instruction::Enter(ticket) | Instruction::Change(ticket) => ticket.number,
        Instruction::Delete { number, .. } => number,
    }
}

fn new_order(instruction: Instruction<Ticket>) -> Option<Resting> {
    match instruction {
        Instruction::Enter(ticket) | Instruction::Change(ticket) => Some(resting(ticket)),
        Instruction::Delete { .. } => None,
    }
}

// The book without the order that is named, and with the new one at the end.
fn book_after(heap: Global, book: &[Resting], instruction: Instruction<Ticket>) -> Vec<Resting> {
    let mut after = Vec::new(heap);
    for order in book {
        if order.number != number_of(instruction) {
            let _ = after.push(*order);
        }
    }
    if let Some(order) = new_order(instruction) {
        let _ = after.push(order);
    }
    after
}

// What is left of orders under a quote: those with open shares, and not the quote.
fn left_over(heap: Global, orders: &[Resting]) -> Vec<Resting> {
    let mut left = Vec::new(heap);
    for order in orders {
        if order.number != 0 && order.open != 0 {
            let _ = left.push(*order);
        }
    }
    left
}

fn count_stops(book: &[Resting], quote: Quote) -> usize {
    book.iter()
        .filter(|order| order.is_triggered(quote))
        .count()
}

// A day so far, with all answers that it gave.
#[derive(Drop)]
pub(crate) struct Reckoning {
    heap: Global,
    market: Market,
    pub(crate) book: Vec<Resting>,
    // what waits in a freeze; none outside of one
    pub(crate) held: Option<Vec<Instruction<Ticket>>>,
    pub(crate) fills: [Fill; ENTRIES],
    pub(crate) receipts: [Receipt; ENTRIES],
    pub(crate) answers: Vec<Answer>,
}

impl Reckoning {
    pub(crate) fn new(heap: Global, market: Market) -> Reckoning {
        Reckoning {
            heap,
            market,
            book: Vec::new(heap),
            held: None,
            fills: [NO_FILL; ENTRIES],
            receipts: [NO_RECEIPT; ENTRIES],
            answers: Vec::new(heap),
        }
    }

    fn carry_out(&mut self, instruction: Instruction<Ticket>) -> Result<Effect, Refusal> {
        let answer = answer_of(self.book.as_slice(), self.market.book_room, instruction);
        if answer.is_ok() {
            self.book = book_after(self.heap, self.book.as_slice(), instruction);
        }
        answer
    }

    fn send(&mut self, instruction: Instruction<Ticket>) -> Result<Answer, Refusal> {
        check_fields(self.market, instruction)?;
        if let Some(held) = &mut self.held {
            if held.len() >= self.market.stock_room {
                return Err(Refusal::LockedStockFull);
            }
            let _ = held.push(instruction);
            return Ok(Answer::Held);
        }
        Ok(Answer::Done(self.carry_out(instruction)?))
    }

    // The freeze ends: what is held is carried out, oldest first, with a receipt each.
    fn release(&mut self) -> usize {
        let held = self.held.take().unwrap_or(Vec::new(self.heap));
        for (place, instruction) in held.iter().enumerate() {
            let answer = self.carry_out(*instruction);
            let receipt = Receipt {
                number: number_of(*instruction),
                answer,
            };
            put_at(&mut self.receipts, place, receipt);
        }
        held.len()
    }

    fn check_receipts(&self, receipts: usize) -> Result<(), Refusal> {
        if receipts < self.market.stock_room {
            return Err(Refusal::ReceiptEntries);
        }
        Ok(())
    }

    fn check_match(&self, quote: Quote, fills: usize, receipts: usize) -> Result<(), Refusal> {
        let market = self.market;
        if !is_price(market, quote.bid) || !is_price(market, quote.ask) || quote.bid >= quote.ask {
            return Err(Refusal::QuotePrices);
        }
        if !is_volume(market, quote.bid_volume) || !is_volume(market, quote.ask_volume) {
            return Err(Refusal::QuoteVolumes);
        }
        if fills < self.book.len() {
            return Err(Refusal::FillEntries);
        }
        self.check_receipts(receipts)
    }

    fn hold_auction(&mut self, quote: Quote) -> Matched {
        let stops = count_stops(self.book.as_slice(), quote);
        let mut orders = under_quote(self.heap, self.book.as_slice(), quote);
        match price_of(orders.as_slice(), quote, self.market.tick) {
            None => {
                self.book = left_over(self.heap, orders.as_slice());
                let receipts = self.release();
                Matched::Unpriced {
                    stops,
                    fills: 0,
                    receipts,
                }
            }
            Some(price) => {
                let shares = u32::try_from(shares(orders.as_slice(), price)).unwrap_or(0);
                let surplus = surplus(orders.as_slice(), price);
                let fills = trade(orders.as_mut_slice(), price, &mut self.fills);
                self.book = left_over(self.heap, orders.as_slice());
                let receipts = self.release();
                Matched::Priced {
                    price,
                    shares,
                    surplus,
                    stops,
                    fills,
                    receipts,
                }
            }
        }
    }

    // A call of the freeze that is not an instruction.
    fn end(&mut self, call: Call) -> Result<Answer, Refusal> {
        match call {
            Call::Match {
                quote,
                fills,
                receipts,
            } => {
                self.check_match(quote, fills, receipts)?;
                Ok(Answer::Matched(self.hold_auction(quote)))
            }
            Call::Lift { receipts } => {
                self.check_receipts(receipts)?;
                Ok(Answer::Lifted(self.release()))
            }
            _ => Err(Refusal::WrongPhase),
        }
    }

    // What a call answers, or why it is refused.
    fn call(&mut self, call: Call) -> Result<Answer, Refusal> {
        match call {
            Call::Send(instruction) => self.send(instruction),
            _ if self.held.is_some() => self.end(call),
            Call::Freeze => {
                self.held = Some(Vec::new(self.heap));
                Ok(Answer::Frozen)
            }
            _ => Err(Refusal::WrongPhase),
        }
    }

    pub(crate) fn answer(&mut self, call: Call) -> Answer {
        let answer = self.call(call).unwrap_or_else(Answer::Refused);
        let _ = self.answers.push(answer);
        answer
    }
}
