// A naive reckoning of the price: every whole price from bid to ask is tried, order by order.
use orders::terms::{Kind, Side, Terms};
use pricing::quote::Quote;
use pricing::trial::TrialPrice;

// What an order is once the quote has come: it may trade without a limit, with one, or not at all.
#[derive(Clone, Copy, PartialEq, Eq, Debug)]
enum Ready {
    Unlimited,
    Limited(u32),
    No,
}

// Orders under a quote.
#[derive(Clone, Copy)]
pub(crate) struct Reckoning<'a> {
    pub(crate) orders: &'a [Terms],
    pub(crate) quote: Quote,
}

impl Reckoning<'_> {
    fn is_triggered(self, order: &Terms, stop: u32) -> bool {
        match order.side {
            Side::Buy => stop <= self.quote.ask,
            Side::Sell => stop >= self.quote.bid,
        }
    }

    fn how_ready(self, order: &Terms) -> Ready {
        match order.kind {
            Kind::Market => Ready::Unlimited,
            Kind::Limit { limit } => Ready::Limited(limit),
            Kind::StopMarket { stop } if self.is_triggered(order, stop) => Ready::Unlimited,
            Kind::StopLimit { limit, stop } if self.is_triggered(order, stop) => {
                Ready::Limited(limit)
            }
            Kind::StopMarket { .. } | Kind::StopLimit { .. } => Ready::No,
        }
    }

    fn counts_at(self, order: &Terms, price: u32) -> bool {
        match (self.how_ready(order), order.side) {
            (Ready::Unlimited, _) => true,
            (Ready::Limited(limit), Side::Buy) => limit >= price,
            (Ready::Limited(limit), Side::Sell) => limit <= price,
            (Ready::No, _) => false,
        }
    }

    // What a side would trade at a price.
    fn depth(self, side: Side, price: u32) -> u32 {
        let mut sum = match side {
            Side::Buy if price == self.quote.bid => self.quote.bid_volume,
            Side::Sell if price == self.quote.ask => self.quote.ask_volume,
            _ => 0,
        };
        for order in self.orders {
            if order.side == side && self.counts_at(order, price) {
                sum = sum.saturating_add(order.quantity);
            }
        }
        sum
    }

    fn shares(self, price: u32) -> u32 {
        self.depth(Side::Buy, price)
            .min(self.depth(Side::Sell, price))
    }

    // Demand less supply.
    fn surplus(self, price: u32) -> i64 {
        i64::from(self.depth(Side::Buy, price)).saturating_sub(i64::from(self.depth(
            Side::Sell,
            price,
        )))
    }

    // Is this price the bid, the ask, or the limit of an order that may trade?
    fn is_level(self, price: u32) -> bool {
        price == self.quote.bid
            || price == self.quote.ask
            || self
                .orders
                .iter()
                .any(|order| self.how_ready(order) == Ready::Limited(price))
    }

    // The most shares that any whole price from bid to ask trades.
    pub(crate) fn most_shares(self) -> u32 {
        (self.quote.bid..=self.quote.ask)
            .map(|price| self.shares(price))
            .max()
            .unwrap_or(0)
    }

    // Has one price more shares than the other, or as many and less difference?
    fn is_better(self, price: u32, other: u32) -> bool {
        self.shares(price) > self.shares(other)
            || self.shares(price) == self.shares(other)
                && self.surplus(price).unsigned_abs() < self.surplus(other).unsigned_abs()
    }

    // Is this one of the levels that are kept: with most shares, and of these with least difference?
    fn is_kept(self, price: u32) -> bool {
        self.is_level(price)
            && !(self.quote.bid..=self.quote.ask).any(|other| self.is_level(other)
                && self.is_better(other, price))
    }

    fn price(self, tick: u32) -> u32 {
        let mut lowest = self.quote.ask;
        let mut highest = self.quote.bid;
        let mut all_above = true;
        let mut all_below = true;
        for price in self.quote.bid..=self.quote.ask {
            if self.is_kept(price) {
                lowest = lowest.min(price);
                highest = highest.max(price);
                all_above = all_above && self.surplus(price) > 0;
                all_below = all_below && self.surplus(price) < 0;
            }
        }
        if all_above {
            return highest;
        }
        if all_below {
            return lowest;
        }
        let middle = lowest.saturating_add(highest) / 2;
        let past = middle.checked_rem(tick).unwrap_or(0);
        middle.saturating_sub(past).max(lowest)
    }

    fn is_triggered_stop(self, order: &Terms) -> bool {
        matches!(order.kind, Kind::StopMarket { .. } | Kind::StopLimit { .. })
            && self.how_ready(order) != Ready::No
    }

    // The price, or none, and how many stops are triggered.
    pub(crate) fn trial_price(self, tick: u32) -> TrialPrice {
        let stops = self
            .orders
            .iter()
            .filter(|order| self.is_triggered_stop(order))
            .count();
        if self.most_shares() == 0 {
            return TrialPrice::Unpriced { stops };
        }
        let price = self.price(tick);
        TrialPrice::Priced {
            price,
            shares: self.shares(price),
            surplus: self.surplus(price),
            stops,
        }
    }
}
