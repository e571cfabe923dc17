// Demand and supply at a price.
ghost use Rattle.std.specs.Prelude.{◌≡◌, ◌≤◌, sum_by};
ghost use Rattle.pricing.specs.Depth.{limit_takes, kind_takes, takes_at, open_at, quoted_at, depth_at};

use crate::gather::Crossing;
use crate::quote::MatchingQuote;
use orders::terms::{Kind, Side, Terms};

// Does a limit of this side take the price?
fn limit_takes(side: Side, limit: u32, price: u32) -> bool
    ensures { result ≡ limit_takes side limit price }
{
    match side {
        Side::Buy => price <= limit,
        Side::Sell => limit <= price,
    }
}

// Does an order of this side and kind trade at the price?
fn kind_takes(side: Side, kind: Kind, price: u32) -> bool
    ensures { result ≡ kind_takes side kind price }
{
    match kind {
        Kind::Market => true,
        Kind::Limit { limit } => limit_takes(side, limit, price),
        Kind::StopMarket { .. } | Kind::StopLimit { .. } => false,
    }
}

// Does an order trade on a side at a price?
pub fn takes_at(side: Side, price: u32, terms: Terms) -> bool
    ensures { result ≡ takes_at side price terms }
{
    terms.side == side && kind_takes(side, terms.kind, price)
}

// What an order has open on a side at a price.
fn open_at(side: Side, price: u32, terms: Terms) -> u32
    ensures { result ≡ open_at side price terms }
{
    if takes_at(side, price, terms) {
        terms.quantity
    } else {
        0
    }
}

impl MatchingQuote {
    // The volume of the bid at the bid, and of the ask at the ask.
    pub fn quoted_at(self, side: Side, price: u32) -> u32
        ensures value { result ≡ quoted_at self.quote side price }
        ensures bound { result ≤ 1000000 }
    {
        match side {
            Side::Buy if price == self.quote.bid => self.quote.bid_volume,
            Side::Sell if price == self.quote.ask => self.quote.ask_volume,
            _ => 0,
        }
    }
}

impl Crossing {
    // What the orders have open on a side at a price.
    fn volume(&self, side: Side, price: u32) -> u32
        ensures { result ≡ sum_by (open_at side price) self.now.orders.items }
    {
        self.orders
            .iter()
            .map(|terms| open_at(side, price, *terms))
            .sum()
    }

    // All that a side would trade at a price.
    #[tactic(auto, using(crate::proofs::Bounding::volume_most))]
    pub(crate) fn depth_at(&self, side: Side, price: u32) -> u32
        ensures { result ≡ depth_at self.now.quote.quote self.now.orders.items side price }
    {
        self.volume(side, price) + self.quote.quoted_at(side, price)
    }
}
