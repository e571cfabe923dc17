// The lines that the tool prints.
use book::open::OpenFigure;
use orders::refusal::Refusal;
use orders::terms::Terms;
use saved_book::fault::SavedFault;

#[derive(Clone, Copy, PartialEq, Eq, Debug)]
pub enum Line {
    // how to use the tool
    Usage,
    // the names of the columns
    Heading,
    Order(Terms),
    Open(OpenFigure),
    Price { price: u32, shares: u32 },
    Surplus(i64),
    // how many stops the quote triggers
    Stops(usize),
    // no level trades a share
    NoTrade,
    // the quote is refused
    NoQuote,
    Refused(Refusal),
    // the bytes are no saved book
    Fault(SavedFault),
}
