// What a member sends for an order, number for number. Any numbers may come; a price of 0 is not given.
use crate::terms::{OrderType, Side};

#[derive(Clone, Copy, PartialEq, Eq, Debug)]
pub struct Ticket {
    pub number: u32,
    pub participant: u16,
    pub side: Side,
    pub order_type: OrderType,
    pub quantity: u32,
    pub limit: u32,
    pub stop: u32,
}
