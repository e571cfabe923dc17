// What an order or the quote wants to trade in an auction.

// The number 0 is the quote's, as in a fill. The default fills the free places of a list.
#[derive(Clone, Copy, PartialEq, Eq, Debug, Default)]
pub struct Interest {
    pub number: u32,
    pub quantity: u32,
}
