// The best of the levels.
ghost use Rattle.std.specs.Prelude.{◌≡◌, ◌≤◌};
ghost use Rattle.orders.specs.Told.{grid_of};
ghost use Rattle.pricing.specs.Depth.{level_of};
ghost use Rattle.pricing.specs.Steps.{lone_best, tied_best, better_of, best_at, best_of, chosen_price};

use crate::gather::Crossing;
use crate::quote::Quote;
use orders::settings::Settings;
use orders::terms::{Kind, Side};
use std::cmp::Ordering;

// The best of some levels: most shares, then least difference.
#[derive(Clone, Copy)]
pub(crate) struct Best {
    pub(crate) shares: u32,
    pub(crate) difference: u32,
    // the lowest and the highest of the levels that are as good
    pub(crate) lowest: u32,
    pub(crate) highest: u32,
    // how demand compares to supply, if it does so at all of these alike, and else `Equal`
    pub(crate) lean: Ordering,
}

impl Best {
    // One level as the best.
    fn lone(price: u32, demand: u32, supply: u32) -> Best
        ensures { result ≡ lone_best price demand supply }
    {
        Best {
            shares: demand.min(supply),
            difference: demand.abs_diff(supply),
            lowest: price,
            highest: price,
            lean: demand.cmp(&supply),
        }
    }

    // Two that are as good as each other.
    fn tied(self, other: Best) -> Best
        ensures { result ≡ tied_best self other }
    {
        Best {
            shares: self.shares,
            difference: self.difference,
            lowest: self.lowest.min(other.lowest),
            highest: self.highest.max(other.highest),
            lean: if self.lean == other.lean {
                self.lean
            } else {
                Ordering::Equal
            },
        }
    }

    // More shares are better, and then less difference.
    fn better(self, other: Best) -> Best
        ensures { result ≡ better_of self other }
    {
        let order = self
            .shares
            .cmp(&other.shares)
            .then(other.difference.cmp(&self.difference));
        match order {
            Ordering::Less => other,
            Ordering::Equal => self.tied(other),
            Ordering::Greater => self,
        }
    }

    // The price that the best levels give.
    #[tactic(auto, using(orders::proofs::Stepping::tick_some))]
    pub(crate) fn price(self, settings: Settings) -> u32
        requires { (self.lowest ≤ 1000000000) × (self.highest ≤ 1000000000) }
        ensures { result ≡ chosen_price (grid_of settings).tick self }
    {
        match self.lean {
            Ordering::Greater => self.highest,
            Ordering::Less => self.lowest,
            Ordering::Equal => {
                let tick = settings.tick();
                self.lowest
                    .max((self.lowest + self.highest) / 2 / tick * tick)
            }
        }
    }
}

impl Quote {
    // The level that an order of a kind adds.
    fn level_of(self, kind: Kind) -> Option<u32>
        ensures { result ≡ level_of self kind }
    {
        match kind {
            Kind::Limit { limit } if self.bid <= limit && limit <= self.ask => Some(limit),
            _ => None,
        }
    }
}

impl Crossing {
    // A price as the best of its own.
    fn best_at(&self, price: u32) -> Best
        ensures { result ≡ best_at self.now.quote.quote self.now.orders.items price }
    {
        let demand = self.depth_at(Side::Buy, price);
        let supply = self.depth_at(Side::Sell, price);
        Best::lone(price, demand, supply)
    }

    // The best of all levels.
    pub(crate) fn best(&self) -> Best
        ensures { result ≡ best_of self.now.quote.quote self.now.orders.items }
    {
        let quote = self.quote.quote;
        let ends = self.best_at(quote.bid).better(self.best_at(quote.ask));
        self.orders
            .iter()
            .filter_map(|terms| quote.level_of(terms.kind))
            .fold(ends, |best, level| best.better(self.best_at(level)))
    }
}
