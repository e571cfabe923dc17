// A quote request.
use orders::terms::Side;

// A participant asks for a quote; it may name a side, and a quantity, which is sent as 0 where it is not told.
#[derive(Clone, Copy, PartialEq, Eq, Debug)]
pub struct QuoteRequest {
    pub participant: u16,
    pub side: Option<Side>,
    pub quantity: u32,
}
