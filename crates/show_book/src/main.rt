// Prints a saved book as a person reads it: its orders, what is open, and the trial price under a quote.
#![tactic(auto)]

use crate::line::Line;
use crate::request::{Request, request_of};
use book::Book;
use book::iter::orders_of;
use book::open::open_figure;
use orders::refusal::Refusal;
use orders::settings::Settings;
use pricing::quote::Quote;
use pricing::trial::{TrialPrice, trial_price};
use saved_book::accept::accept;
use std::env;
use std::io::Read;

mod line;
mod request;
mod text;

fn say(rt: &HostRuntime, line: Line) -> anyhow::Result<()> {
    println!(rt; "{line}")?;
    Ok(())
}

// What the arguments ask for, if they are six numbers.
fn asked(rt: &HostRuntime) -> anyhow::Result<Option<Request>> {
    let mut numbers = Vec::new(rt.alloc());
    for word in env::args(rt)?.skip(1) {
        match word.as_str().parse::<u32>() {
            Ok(number) => numbers.push(number)?,
            Err(_) => return Ok(None),
        }
    }
    Ok(request_of(numbers.as_slice()))
}

// The trial price, or why there is none.
fn show_price(rt: &HostRuntime, answer: Result<TrialPrice, Refusal>) -> anyhow::Result<()> {
    match answer {
        Ok(
            TrialPrice::Priced {
                price,
                shares,
                surplus,
                stops,
            },
        ) => {
            say(rt, Line::Price { price, shares })?;
            say(rt, Line::Surplus(surplus))?;
            say(rt, Line::Stops(stops))
        }
        Ok(TrialPrice::Unpriced { stops }) => {
            say(rt, Line::NoTrade)?;
            say(rt, Line::Stops(stops))
        }
        Err(refusal) => {
            say(rt, Line::NoQuote)?;
            say(rt, Line::Refused(refusal))
        }
    }
}

// The orders of a book, what is open in it, and its price.
fn show_book<B: Book>(
    rt: &HostRuntime,
    settings: Settings,
    book: &B,
    quote: Quote,
) -> anyhow::Result<()> {
    say(rt, Line::Heading)?;
    for order in orders_of(book) {
        say(rt, Line::Order(order.terms()))?;
    }
    say(rt, Line::Open(open_figure(book)))?;
    show_price(rt, trial_price(settings, book, quote))
}

// The saved book on standard input, or why it is none.
fn show_input(rt: &HostRuntime, settings: Settings, quote: Quote) -> anyhow::Result<()> {
    let mut bytes = Vec::new(rt.alloc());
    rt.stdin().read_to_end(&mut bytes)?;
    match accept(settings, bytes.as_slice()) {
        Ok(book) => show_book(rt, settings, &book, quote),
        Err(fault) => say(rt, Line::Fault(fault)),
    }
}

fn main(rt: HostRuntime) -> anyhow::Result<()> {
    let Some(request) = asked(&rt)? else {
        return say(&rt, Line::Usage);
    };
    match Settings::new(request.lot, request.tick_class) {
        Ok(settings) => show_input(&rt, settings, request.quote),
        Err(refusal) => say(&rt, Line::Refused(refusal)),
    }
}
