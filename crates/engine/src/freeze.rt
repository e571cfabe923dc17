// The calls of a freeze.
ghost use Rattle.std.specs.Prelude.{◌≡◌};
ghost use Rattle.orders.specs.Checks.{checked};
ghost use Rattle.orders.specs.Told.{grid_of};
ghost use Rattle.orders.specs.declared.instruction.Instruction.TheVariants.{Enter, Change, Delete};
ghost use Rattle.locked_stock.specs.Holding.{HeldBy};
ghost use Rattle.locked_stock.specs.Receipts.{Released};
ghost use Rattle.engine.specs.Matches.{grid_frozen, without_phase, PhaseKept, MatchHeld};
ghost use Rattle.engine.specs.PreCalls.{grid_under};
ghost use Rattle.engine.specs.Steps.{MatchRun};

use crate::frozen::Frozen;
use crate::matched::Matched;
use crate::pre_call::PreCall;
use auction::hold::hold_auction;
use book::Store;
use locked_stock::hold::{LockedStock, hold};
use locked_stock::receipt::Receipt;
use locked_stock::release::release;
use orders::instruction::Instruction;
use orders::refusal::Refusal;
use orders::settings::Settings;
use orders::ticket::Ticket;
use pricing::quote::{MatchingQuote, Quote};
use settling::fill::Fill;

impl PreCall {
    // Freezes the book.
    pub fn freeze(self) -> Frozen
        ensures { grid_frozen result ≡ grid_under self }
    {
        Frozen {
            settings: self.settings,
        }
    }
}

// The auction, and then what was held.
fn run_match<S: Store>(
    settings: Settings,
    store: &mut S,
    stock: &mut LockedStock<'_>,
    quote: MatchingQuote,
    fills: &mut [Fill],
    receipts: &mut [Receipt],
) -> Result<Matched, Refusal>
    ensures { MatchRun (grid_of settings).tick quote.quote (S.Store.room store.old) stock.old (S.Book.orders store.old) fills.old receipts.old result (S.Store.room store.new) stock.new (S.Book.orders store.new) fills.new receipts.new }
{
    let auctioned = hold_auction(settings, store, quote, fills)?;
    let count = release(stock, store, receipts)?;
    Ok(Matched::new(auctioned, count))
}

// A match: its checks, and then the auction with what was held.
// What it is lent is named one by one, since the promise speaks of each before and after.
// The auction and the release check their entries too, but once the auction is held nothing may be refused.
fn hold_match<S: Store>(
    settings: Settings,
    store: &mut S,
    stock: &mut LockedStock<'_>,
    quote: Quote,
    fills: &mut [Fill],
    receipts: &mut [Receipt],
) -> Result<Matched, Refusal>
    ensures { MatchHeld (grid_of settings) quote (S.Store.room store.old) stock.old (S.Book.orders store.old) fills.old receipts.old result (S.Store.room store.new) stock.new (S.Book.orders store.new) fills.new receipts.new }
{
    let matching = MatchingQuote::new(settings, quote)?;
    if fills.len() < store.count() {
        return Err(Refusal::FillEntries);
    }
    if receipts.len() < stock.capacity() {
        return Err(Refusal::ReceiptEntries);
    }
    run_match(settings, store, stock, matching, fills, receipts)
}

// An answer with the phase after it: pre-call where the freeze is ended, and the freeze where that is refused.
fn ended<T>(
    settings: Settings,
    answer: Result<T, Refusal>,
) -> Result<(PreCall, T), (Frozen, Refusal)>
    ensures answer { without_phase result ≡ answer }
    ensures phase { PhaseKept (grid_of settings) result }
{
    match answer {
        Ok(told) => Ok((PreCall { settings }, told)),
        Err(refusal) => Err((Frozen { settings }, refusal)),
    }
}

impl Frozen {
    // An instruction waits to be carried out.
    pub fn send(
        &self,
        stock: &mut LockedStock<'_>,
        instruction: Instruction<Ticket>,
    ) -> Result<(), Refusal>
        ensures { HeldBy (checked (grid_frozen self.now) instruction) stock.old result stock.new }
    {
        hold(stock, self.settings, instruction)
    }

    // An order waits to be entered.
    pub fn enter(&self, stock: &mut LockedStock<'_>, ticket: Ticket) -> Result<(), Refusal>
        ensures { HeldBy (checked (grid_frozen self.now) (Enter ticket)) stock.old result stock.new }
    {
        self.send(stock, Instruction::Enter(ticket))
    }

    // A change waits to be made.
    pub fn change(&self, stock: &mut LockedStock<'_>, ticket: Ticket) -> Result<(), Refusal>
        ensures { HeldBy (checked (grid_frozen self.now) (Change ticket)) stock.old result stock.new }
    {
        self.send(stock, Instruction::Change(ticket))
    }

    // A deletion waits to be carried out.
    pub fn delete(
        &self,
        stock: &mut LockedStock<'_>,
        number: u32,
        participant: u16,
    ) -> Result<(), Refusal>
        ensures { HeldBy (checked (grid_frozen self.now) (Delete number participant)) stock.old result stock.new }
    {
        self.send(
            stock,
            Instruction::Delete {
                number,
                participant,
            },
        )
    }

    // Ends the freeze by an auction under a matching quote; a refusal hands the freeze back.
    pub fn match_quote<S: Store>(
        self,
        store: &mut S,
        stock: &mut LockedStock<'_>,
        quote: Quote,
        fills: &mut [Fill],
        receipts: &mut [Receipt],
    ) -> Result<(PreCall, Matched), (Frozen, Refusal)>
        ensures held { MatchHeld (grid_frozen self) quote (S.Store.room store.old) stock.old (S.Book.orders store.old) fills.old receipts.old (without_phase result) (S.Store.room store.new) stock.new (S.Book.orders store.new) fills.new receipts.new }
        ensures phase { PhaseKept (grid_frozen self) result }
    {
        let Frozen { settings } = self;
        let answer = hold_match(settings, store, stock, quote, fills, receipts);
        ended(settings, answer)
    }

    // Ends the freeze without an auction, and tells how many receipts were written; a refusal hands the freeze back.
    pub fn lift<S: Store>(
        self,
        store: &mut S,
        stock: &mut LockedStock<'_>,
        receipts: &mut [Receipt],
    ) -> Result<(PreCall, usize), (Frozen, Refusal)>
        ensures released { Released (S.Store.room store.old) stock.old (S.Book.orders store.old) receipts.old (without_phase result) (S.Store.room store.new) stock.new (S.Book.orders store.new) receipts.new }
        ensures phase { PhaseKept (grid_frozen self) result }
    {
        let Frozen { settings } = self;
        let answer = release(stock, store, receipts);
        ended(settings, answer)
    }
}
