// What the tool is asked for: settings and a quote.
ghost use Rattle.std.specs.Prelude.{◌≡◌};
ghost use Rattle.show_book.specs.Requests.{asked};

use pricing::quote::Quote;

#[derive(Clone, Copy, PartialEq, Eq, Debug)]
pub struct Request {
    pub lot: u16,
    pub tick_class: u32,
    pub quote: Quote,
}

// The request that six numbers make.
pub(crate) fn request_of(numbers: &[u32]) -> Option<Request>
    ensures { result ≡ asked numbers.now }
{
    let [lot, tick_class, bid, ask, bid_volume, ask_volume] = numbers else {
        return None;
    };
    Some(Request {
        lot: u16::try_from(*lot).ok()?,
        tick_class: *tick_class,
        quote: Quote {
            bid: *bid,
            ask: *ask,
            bid_volume: *bid_volume,
            ask_volume: *ask_volume,
        },
    })
}
