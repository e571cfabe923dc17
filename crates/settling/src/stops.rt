// Stops triggered in a store.
ghost use Rattle.std.specs.Prelude.{◌≡◌, fold};
ghost use Rattle.std.specs.Option.{option_map};
ghost use Rattle.orders.specs.Told.{terms_of};
ghost use Rattle.book.specs.Calls.{Leaves};
ghost use Rattle.book.specs.Lists.{Sound};
ghost use Rattle.pricing.specs.Stops.{triggered_form, after_stops, stop_count};
ghost use Rattle.settling.specs.Conservation.{OpenAsBefore};
ghost use Rattle.settling.specs.Steps.{stop_numbers, stop_at, stop_moved};

use arrayvec::ArrayVec;
use book::find::find;
use book::iter::orders_of;
use book::{Book, Store};
use orders::capacity::MOST;
use orders::order::Order;
use pricing::quote::Quote;

// The number of an order if the quote triggers it.
fn stop_number(quote: Quote, order: Order) -> Option<u32>
    ensures { result ≡ option_map (λ t. t.number) (triggered_form quote (terms_of order)) }
{
    quote.triggered(order).map(|ready| ready.terms().number)
}

// The numbers of the stops that a quote triggers, in list order.
fn note_stops<B: Book>(book: &B, quote: Quote) -> ArrayVec<u32, MOST>
    ensures { result.items ≡ stop_numbers quote (B.Book.orders book.now) }
{
    let mut numbers = ArrayVec::new();
    for order in orders_of(book) {
        if let Some(number) = stop_number(quote, order) {
            numbers.push(number);
        }
    }
    numbers
}

// What the order of a number becomes if the quote triggers it.
fn stop_at<B: Book>(book: &B, quote: Quote, number: u32) -> Option<Order>
    ensures { option_map terms_of result ≡ stop_at quote number (B.Book.orders book.now) }
{
    find(book, number).and_then(|order| quote.triggered(order))
}

// Puts a stop that the quote triggers at the end of the list.
fn move_stop<S: Store>(store: &mut S, quote: Quote, number: u32)
    ensures { Leaves (S.Store.room store.old) (stop_moved quote (S.Book.orders store.old) number) (S.Store.room store.new) (S.Book.orders store.new) }
{
    let Some(order) = stop_at(store, quote, number) else {
        return;
    };
    let _ = store.take_out(number);
    let _ = store.append(order);
}

fn move_stops<S: Store>(store: &mut S, quote: Quote, numbers: &[u32])
    ensures { Leaves (S.Store.room store.old) (fold (stop_moved quote) (S.Book.orders store.old) numbers.now) (S.Store.room store.new) (S.Book.orders store.new) }
{
    for number in numbers {
        move_stop(store, quote, *number);
    }
}

// The stops that a quote triggers go to the end in list order, as market or limit orders; tells how many.
pub fn trigger_stops<S: Store>(store: &mut S, quote: Quote) -> usize
    ensures value { result ≡ stop_count quote (S.Book.orders store.old) }
    ensures after { S.Book.orders store.new ≡ after_stops quote (S.Book.orders store.old) }
    ensures same { S.Store.room store.new ≡ S.Store.room store.old }
    ensures sound { Sound (S.Book.orders store.new) }
    ensures conserves { OpenAsBefore (S.Book.orders store.old) (S.Book.orders store.new) }
{
    let numbers = note_stops(store, quote);
    move_stops(store, quote, &numbers);
    numbers.len()
}
