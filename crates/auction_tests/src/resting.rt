// An order of the reckoning: each price is there or not, and an order with a stop does not trade.
use orders::terms::{Kind, Side, Terms};
use pricing::quote::Quote;

#[derive(Clone, Copy, PartialEq, Eq)]
pub(crate) struct Resting {
    pub(crate) number: u32,
    pub(crate) participant: u16,
    pub(crate) side: Side,
    pub(crate) limit: Option<u32>,
    pub(crate) stop: Option<u32>,
    pub(crate) open: u32,
}

impl Resting {
    // Does a quote trigger its stop?
    pub(crate) fn is_triggered(self, quote: Quote) -> bool {
        match (self.stop, self.side) {
            (None, _) => false,
            (Some(stop), Side::Buy) => stop <= quote.ask,
            (Some(stop), Side::Sell) => stop >= quote.bid,
        }
    }

    // Does it count at a price?
    pub(crate) fn counts_at(self, price: u32) -> bool {
        match (self.stop, self.limit, self.side) {
            (Some(_), _, _) => false,
            (None, None, _) => true,
            (None, Some(limit), Side::Buy) => limit >= price,
            (None, Some(limit), Side::Sell) => limit <= price,
        }
    }

    // Is it ahead of an earlier order of its side?
    pub(crate) fn overtakes(self, earlier: Resting) -> bool {
        match (self.limit, earlier.limit, self.side) {
            (_, None, _) => false,
            (None, Some(_), _) => true,
            (Some(limit), Some(other), Side::Buy) => limit > other,
            (Some(limit), Some(other), Side::Sell) => limit < other,
        }
    }

    // The order in the words of the engine.
    pub(crate) fn terms(self) -> Terms {
        let kind = match (self.limit, self.stop) {
            (None, None) => Kind::Market,
            (Some(limit), None) => Kind::Limit { limit },
            (None, Some(stop)) => Kind::StopMarket { stop },
            (Some(limit), Some(stop)) => Kind::StopLimit { limit, stop },
        };
        Terms {
            number: self.number,
            participant: self.participant,
            side: self.side,
            kind,
            quantity: self.open,
        }
    }
}
