// The calls of a day.
use orders::instruction::Instruction;
use orders::ticket::Ticket;
use pricing::quote::Quote;

#[derive(Clone, Copy, PartialEq, Eq, Debug)]
pub enum Call {
    Send(Instruction<Ticket>),
    Freeze,
    // a matching quote, and how many entries are lent for fills and for receipts
    Match {
        quote: Quote,
        fills: usize,
        receipts: usize,
    },
    Lift {
        receipts: usize,
    },
}
