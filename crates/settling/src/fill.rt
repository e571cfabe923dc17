// A fill: one trade of an auction.

// Buyer and seller are order numbers; 0 is the quote, as members are told.
#[derive(Clone, Copy, PartialEq, Eq, Debug)]
pub struct Fill {
    pub buyer: u32,
    pub seller: u32,
    pub price: u32,
    pub quantity: u32,
}
