// A matching quote as it is sent, and one whose numbers are checked.
ghost use Rattle.std.specs.Prelude.{◌≡◌, ◌<◌, ◌≤◌, IfOk};
ghost use Rattle.orders.specs.Results.{seen};
ghost use Rattle.orders.specs.Told.{grid_of};
ghost use Rattle.pricing.specs.Quotes.{prices_match, is_volume, volumes_match, checked_quote};

use orders::refusal::Refusal;
use orders::settings::Settings;

// What a Specialist names for a match; any numbers may come.
#[derive(Clone, Copy, PartialEq, Eq, Debug)]
pub struct Quote {
    pub bid: u32,
    pub ask: u32,
    pub bid_volume: u32,
    pub ask_volume: u32,
}

// A quote that is taken: in range, and the bid below the ask.
#[derive(Clone, Copy, PartialEq, Eq, Debug)]
pub struct MatchingQuote {
    pub(crate) quote: Quote,
    ghost apart: { quote.bid < quote.ask },
    ghost top: { quote.ask ≤ 1000000000 },
    ghost small: { (quote.bid_volume ≤ 1000000) × (quote.ask_volume ≤ 1000000) },
}

fn prices_match(settings: Settings, quote: Quote) -> bool
    ensures { result ≡ prices_match (grid_of settings) quote }
{
    settings.is_on_tick(quote.bid) && settings.is_on_tick(quote.ask) && quote.bid < quote.ask
}

fn is_volume(settings: Settings, volume: u32) -> bool
    ensures { result ≡ is_volume (grid_of settings) volume }
{
    volume == 0 || settings.is_on_lot(volume)
}

fn volumes_match(settings: Settings, quote: Quote) -> bool
    ensures { result ≡ volumes_match (grid_of settings) quote }
{
    is_volume(settings, quote.bid_volume) && is_volume(settings, quote.ask_volume)
}

impl MatchingQuote {
    // The quote if the settings take it.
    pub fn new(settings: Settings, quote: Quote) -> Result<MatchingQuote, Refusal>
        ensures value { seen (λ m. m.quote) result ≡ checked_quote (grid_of settings) quote }
        ensures same { IfOk result (λ m. m.quote ≡ quote) }
    {
        if !prices_match(settings, quote) {
            return Err(Refusal::QuotePrices);
        }
        if !volumes_match(settings, quote) {
            return Err(Refusal::QuoteVolumes);
        }
        Ok(MatchingQuote { quote })
    }

    // The quote as it was sent.
    pub fn quote(self) -> Quote
        ensures { result ≡ self.quote }
    {
        self.quote
    }
}
