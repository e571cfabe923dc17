// The refusals, and the number that stands for each.
ghost use Rattle.std.specs.Prelude.{◌≡◌, Some};
ghost use Rattle.orders.specs.Numbers.{number_of};
ghost use Rattle.orders.specs.Words.{words_of};

use std::fmt;

#[derive(Clone, Copy, PartialEq, Eq, Debug)]
pub enum Refusal {
    // the order number or the participant is 0
    Identity = 1,
    // the quantity is 0, too large or off the lot
    Quantity = 2,
    // a price is missing, out of range, off the tick, or given to a kind that lacks it
    Price = 3,
    NumberHeld = 4,
    NumberUnknown = 5,
    OtherParticipant = 6,
    // the side or the kind is not that of the order
    SideOrKind = 7,
    BookFull = 8,
    LockedStockFull = 9,
    RequestListFull = 10,
    // the prices of a matching quote: out of range, off the tick, or the bid not below the ask
    QuotePrices = 11,
    // the volumes of a matching quote: too large or off the lot
    QuoteVolumes = 12,
    // a call or a day line that does not belong to the phase
    WrongPhase = 13,
    // the lot or the tick class is out of range
    Settings = 14,
    // no store or line has this capacity
    Capacity = 15,
    // fewer fill entries than orders in the book
    FillEntries = 16,
    // fewer receipt entries than the locked stock has places
    ReceiptEntries = 17,
    // the text of a day line
    Text = 18,
    // the count, the record size or the length of a saved book
    SavedLayout = 19,
    // a record of a saved book
    SavedRecord = 20,
    // the store that is to be loaded is not empty, or too small
    StoreUnfit = 21,
    // the buffer for a saved book is too short
    BufferShort = 22,
}

impl Refusal {
    pub fn number(self) -> u8
        ensures { result ≡ number_of self }
    {
        self as u8
    }
}

// The refusal in words.
impl fmt::Display for Refusal {
    ghost output = { λ r. Some (words_of r) };

    fn fmt<W: fmt::Write>(&self, f: &mut fmt::Formatter<W>) -> fmt::Result {
        f.write_str(match self {
            Refusal::Identity => "the order number or the participant is 0",
            Refusal::Quantity => "the quantity is 0, above 1000000 or off the lot",
            Refusal::Price =>
                "a limit or stop limit is out of range, off the tick, missing or not of the kind",
            Refusal::NumberHeld => "the number is held already",
            Refusal::NumberUnknown => "the number is unknown",
            Refusal::OtherParticipant => "the order is another participant's",
            Refusal::SideOrKind => "the side or the kind differs",
            Refusal::BookFull => "the book is full",
            Refusal::LockedStockFull => "the locked stock is full",
            Refusal::RequestListFull => "the request list is full",
            Refusal::QuotePrices => "the prices of the quote",
            Refusal::QuoteVolumes => "the volumes of the quote",
            Refusal::WrongPhase => "the line does not belong to the phase",
            Refusal::Settings => "the lot or the tick class is out of range",
            Refusal::Capacity => "no store or line has this capacity",
            Refusal::FillEntries => "fewer fill entries than orders",
            Refusal::ReceiptEntries => "fewer receipt entries than places in the locked stock",
            Refusal::Text => "the text of the line",
            Refusal::SavedLayout => "the count, the record size or the length of the saved book",
            Refusal::SavedRecord => "a record of the saved book",
            Refusal::StoreUnfit => "the store is not empty or too small",
            Refusal::BufferShort => "the buffer is too short",
        })
    }
}
