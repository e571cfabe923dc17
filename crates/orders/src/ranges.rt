// The ranges of prices, quantities and terms.
ghost use Rattle.std.specs.Prelude.{◌≡◌};
ghost use Rattle.orders.specs.Ranges.{is_price, is_quantity, has_prices, in_range};

use crate::terms::{Kind, Terms};

const HIGHEST_PRICE: u32 = 1_000_000_000;

const HIGHEST_QUANTITY: u32 = 1_000_000;

pub(crate) fn is_price(price: u32) -> bool
    ensures { result ≡ is_price price }
{
    1 <= price && price <= HIGHEST_PRICE
}

pub(crate) fn is_quantity(quantity: u32) -> bool
    ensures { result ≡ is_quantity quantity }
{
    1 <= quantity && quantity <= HIGHEST_QUANTITY
}

fn has_prices(kind: Kind) -> bool
    ensures { result ≡ has_prices kind }
{
    match kind {
        Kind::Market => true,
        Kind::Limit { limit } => is_price(limit),
        Kind::StopMarket { stop } => is_price(stop),
        Kind::StopLimit { limit, stop } => is_price(limit) && is_price(stop),
    }
}

pub(crate) fn is_in_range(terms: Terms) -> bool
    ensures { result ≡ in_range terms }
{
    1 <= terms.number
        && 1 <= terms.participant
        && is_quantity(terms.quantity)
        && has_prices(terms.kind)
}
