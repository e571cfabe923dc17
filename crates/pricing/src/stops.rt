// The stops that a quote triggers.
ghost use Rattle.std.specs.Prelude.{◌≡◌};
ghost use Rattle.std.specs.Option.{option_map};
ghost use Rattle.orders.specs.Told.{terms_of};
ghost use Rattle.pricing.specs.Stops.{reached_by, triggered_by, ready_kind, made_ready, triggered_form};

use crate::quote::Quote;
use orders::order::Order;
use orders::terms::{Kind, Side, Terms};

impl Quote {
    // Is a stop limit of this side reached?
    fn reaches(self, side: Side, stop: u32) -> bool
        ensures { result ≡ reached_by self side stop }
    {
        match side {
            Side::Buy => stop <= self.ask,
            Side::Sell => self.bid <= stop,
        }
    }

    pub(crate) fn triggers(self, terms: Terms) -> bool
        ensures { result ≡ triggered_by self terms }
    {
        match terms.kind {
            Kind::Market | Kind::Limit { .. } => false,
            Kind::StopMarket { stop } | Kind::StopLimit { stop, .. } => {
                self.reaches(terms.side, stop)
            }
        }
    }

    // The market or limit order that a stop becomes if the quote triggers it.
    pub fn triggered(self, order: Order) -> Option<Order>
        ensures { option_map terms_of result ≡ triggered_form self (terms_of order) }
    {
        let terms = order.terms();
        if !self.triggers(terms) {
            return None;
        }
        Order::new(made_ready(terms))
    }
}

fn ready_kind(kind: Kind) -> Kind
    ensures { result ≡ ready_kind kind }
{
    match kind {
        Kind::Market | Kind::StopMarket { .. } => Kind::Market,
        Kind::Limit { limit } | Kind::StopLimit { limit, .. } => Kind::Limit { limit },
    }
}

// A triggered stop as a market or a limit order.
pub(crate) fn made_ready(terms: Terms) -> Terms
    ensures { result ≡ made_ready terms }
{
    Terms {
        kind: ready_kind(terms.kind),
        ..terms
    }
}
