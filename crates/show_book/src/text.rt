// The text of each line.
ghost use Rattle.show_book.specs.Texts.{line_text};

use crate::line::Line;
use book::open::OpenFigure;
use orders::terms::{OrderType, Side, Terms};
use std::fmt;

// The words of two columns of this tool, which pads them.
fn side_name(side: Side) -> &'static str {
    match side {
        Side::Buy => "buy",
        Side::Sell => "sell",
    }
}

fn type_name(order_type: OrderType) -> &'static str {
    match order_type {
        OrderType::Market => "market",
        OrderType::Limit => "limit",
        OrderType::StopMarket => "stop market",
        OrderType::StopLimit => "stop limit",
    }
}

// A price in its column; a dash where there is none.
#[derive(Clone, Copy)]
struct Price(Option<u32>);

impl fmt::Display for Price {
    fn fmt<W: fmt::Write>(&self, f: &mut fmt::Formatter<W>) -> fmt::Result {
        match self.0 {
            Some(price) => write!(f, "{price:>10}"),
            None => write!(f, "{:>10}", "-"),
        }
    }
}

// An order in columns.
fn write_order<W: fmt::Write>(terms: Terms, f: &mut fmt::Formatter<W>) -> fmt::Result {
    let Terms {
        number,
        participant,
        quantity,
        ..
    } = terms;
    let side = side_name(terms.side);
    let kind = type_name(terms.kind.order_type());
    let limit = Price(terms.kind.limit());
    let stop = Price(terms.kind.stop());
    write!(
        f,
        "{number:>10}  {participant:>11}  {side:<4}  {kind:<11}  {quantity:>8}  {limit}  {stop}"
    )
}

impl fmt::Display for Line {
    ghost output = { line_text };

    fn fmt<W: fmt::Write>(&self, f: &mut fmt::Formatter<W>) -> fmt::Result {
        match *self {
            Line::Usage => write!(
                f,
                "use: show-book LOT TICK-CLASS BID ASK BID-VOLUME ASK-VOLUME < SAVED-BOOK"
            ),
            Line::Heading => write!(
                f,
                "    number  participant  side  kind         quantity       limit        stop"
            ),
            Line::Order(terms) => write_order(terms, f),
            Line::Open(OpenFigure { orders, shares }) => write!(
                f,
                "open: {orders} orders, {shares} shares"
            ),
            Line::Price { price, shares } => write!(f, "price: {price}, for {shares} shares"),
            Line::Surplus(surplus) => write!(f, "surplus: {surplus}"),
            Line::Stops(stops) => write!(f, "stops triggered: {stops}"),
            Line::NoTrade => write!(f, "price: none, no share would trade"),
            Line::NoQuote => write!(f, "price: none, the quote is refused"),
            Line::Refused(refusal) => {
                let number = refusal.number();
                write!(f, "refusal {number}: {refusal}")
            }
            Line::Fault(fault) => write!(f, "{fault}"),
        }
    }
}
