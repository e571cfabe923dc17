// An order: terms that are in range.
ghost use Rattle.std.specs.Prelude.{◌≡◌, true, ◌&&◌, if◌then◌else◌, Some, None, nat_le};
ghost use Rattle.orders.specs.Ranges.{in_range, with_quantity};
ghost use Rattle.std.specs.Option.{option_map};

use crate::ranges::is_in_range;
use crate::terms::Terms;

#[derive(Clone, Copy, PartialEq, Eq, Debug)]
pub struct Order {
    pub(crate) terms: Terms,
    ghost ranged: { in_range terms ≡ true },
}

impl Order {
    // The order of these terms, if they are in range.
    pub fn new(terms: Terms) -> Option<Order>
        ensures { option_map (λ o. o.terms) result ≡ (if in_range terms then Some terms else None) }
    {
        if is_in_range(terms) {
            Some(Order { terms })
        } else {
            None
        }
    }

    pub fn terms(self) -> Terms
        ensures { result ≡ self.terms }
    {
        self.terms
    }

    // The order with an open quantity from 1 to its present one.
    pub fn lowered(self, quantity: u32) -> Option<Order>
        ensures { option_map (λ o. o.terms) result ≡ (if nat_le 1 quantity && nat_le quantity self.terms.quantity then Some (with_quantity self.terms quantity) else None) }
    {
        if quantity == 0 || quantity > self.terms.quantity {
            return None;
        }
        let terms = Terms {
            quantity,
            ..self.terms
        };
        Some(Order { terms })
    }
}
