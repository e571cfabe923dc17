// The checks of an instruction that need only the settings.
ghost use Rattle.std.specs.Prelude.{◌≡◌};
ghost use Rattle.orders.specs.Checks.{identified, on_lot, on_tick, kind_named, checked_ticket, checked};
ghost use Rattle.orders.specs.Results.{seen};
ghost use Rattle.orders.specs.Told.{terms_of, told, grid_of};

use crate::instruction::Instruction;
use crate::order::Order;
use crate::ranges::{is_price, is_quantity};
use crate::refusal::Refusal;
use crate::settings::Settings;
use crate::terms::{Kind, OrderType, Terms};
use crate::ticket::Ticket;

fn is_identified(number: u32, participant: u16) -> bool
    ensures { result ≡ identified number participant }
{
    1 <= number && 1 <= participant
}

impl Settings {
    // Is this a quantity, and a multiple of the lot?
    pub fn is_on_lot(self, quantity: u32) -> bool
        ensures { result ≡ on_lot (grid_of self) quantity }
    {
        is_quantity(quantity) && quantity % u32::from(self.lot) == 0
    }

    // Is this a price, and a multiple of the tick?
    pub fn is_on_tick(self, price: u32) -> bool
        ensures { result ≡ on_tick (grid_of self) price }
    {
        is_price(price) && price % self.tick() == 0
    }

    // The kind that a ticket names with its prices.
    fn kind(self, ticket: Ticket) -> Option<Kind>
        ensures { result ≡ kind_named (grid_of self) ticket.order_type ticket.limit ticket.stop }
    {
        let Ticket { limit, stop, .. } = ticket;
        match ticket.order_type {
            OrderType::Market if limit == 0 && stop == 0 => Some(Kind::Market),
            OrderType::Limit if self.is_on_tick(limit) && stop == 0 => Some(Kind::Limit { limit }),
            OrderType::StopMarket if limit == 0 && self.is_on_tick(stop) => Some(Kind::StopMarket {
                stop,
            }),
            OrderType::StopLimit if self.is_on_tick(limit) && self.is_on_tick(stop) => Some(
                Kind::StopLimit { limit, stop },
            ),
            _ => None,
        }
    }

    // The order that a ticket asks for.
    pub fn order(self, ticket: Ticket) -> Result<Order, Refusal>
        ensures { seen terms_of result ≡ checked_ticket (grid_of self) ticket }
    {
        let Ticket {
            number,
            participant,
            side,
            quantity,
            ..
        } = ticket;
        if !is_identified(number, participant) {
            return Err(Refusal::Identity);
        }
        if !self.is_on_lot(quantity) {
            return Err(Refusal::Quantity);
        }
        let kind = self.kind(ticket).ok_or(Refusal::Price)?;
        let terms = Terms {
            number,
            participant,
            side,
            kind,
            quantity,
        };
        Ok(Order { terms })
    }

    // The instruction about the order that it asks for.
    pub fn check(self, instruction: Instruction<Ticket>) -> Result<Instruction<Order>, Refusal>
        ensures { seen told result ≡ checked (grid_of self) instruction }
    {
        match instruction {
            Instruction::Enter(ticket) => Ok(Instruction::Enter(self.order(ticket)?)),
            Instruction::Change(ticket) => Ok(Instruction::Change(self.order(ticket)?)),
            Instruction::Delete {
                number,
                participant,
            } => {
                if is_identified(number, participant) {
                    Ok(Instruction::Delete {
                        number,
                        participant,
                    })
                } else {
                    Err(Refusal::Identity)
                }
            }
        }
    }
}
