// What a day is made of: a market with its capacities, the calls that are sent, and their answers.
// The reckoning is written apart from the engine's whole days, so it has calls and answers of its own.
use engine::matched::Matched;
use instructions::effect::Effect;
use locked_stock::receipt::Receipt;
use orders::instruction::Instruction;
use orders::refusal::Refusal;
use orders::ticket::Ticket;
use pricing::quote::Quote;
use settling::fill::Fill;

// The tick stands beside its class, so that the reckoning need not ask for it; orders and quotes lie around the base.
#[derive(Clone, Copy)]
pub(crate) struct Market {
    pub(crate) lot: u16,
    pub(crate) class: u32,
    pub(crate) tick: u32,
    pub(crate) base: u32,
    pub(crate) book_room: usize,
    pub(crate) stock_room: usize,
}

// A match and a lift come with the number of entries that are lent for fills and for receipts.
#[derive(Clone, Copy)]
pub(crate) enum Call {
    Send(Instruction<Ticket>),
    Freeze,
    Match {
        quote: Quote,
        fills: usize,
        receipts: usize,
    },
    Lift {
        receipts: usize,
    },
}

#[derive(Clone, Copy, PartialEq, Eq)]
pub(crate) enum Answer {
    Done(Effect),
    Held,
    Frozen,
    Matched(Matched),
    Lifted(usize),
    Refused(Refusal),
}

// How many entries for fills, and how many for receipts, a host has to lend.
pub(crate) const ENTRIES: usize = 64;

// What stands in entries that were never written.
pub(crate) const NO_FILL: Fill = Fill {
    buyer: 77,
    seller: 78,
    price: 79,
    quantity: 80,
};

pub(crate) const NO_RECEIPT: Receipt = Receipt {
    number: 77,
    answer: Err(Refusal::Text),
};
