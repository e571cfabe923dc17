// Fills applied to a store.
ghost use Rattle.std.specs.Prelude.{◌≡◌, ◌-◌, [], ◌∷◌};
ghost use Rattle.orders.specs.Told.{terms_of};
ghost use Rattle.book.specs.Calls.{Leaves};
ghost use Rattle.settling.specs.Conservation.{TradedOrOpen};
ghost use Rattle.settling.specs.Fills.{after_fills};
ghost use Rattle.settling.specs.Steps.{lone_fill};

use crate::fill::Fill;
use book::Store;
use book::find::find;
use orders::order::Order;

// What an order has open once shares are taken off.
fn rest_of(order: Order, shares: u32) -> u32
    ensures { result ≡ (terms_of order).quantity - shares }
{
    order.terms().quantity.saturating_sub(shares)
}

// Takes shares off the order of a number; an order with none left leaves.
fn take_off<S: Store>(store: &mut S, number: u32, shares: u32)
    ensures { Leaves (S.Store.room store.old) (after_fills (lone_fill number shares ∷ []) (S.Book.orders store.old)) (S.Store.room store.new) (S.Book.orders store.new) }
{
    let Some(order) = find(store, number) else {
        return;
    };
    let rest = rest_of(order, shares);
    if rest == 0 {
        let _ = store.take_out(number);
    } else {
        store.lower(number, rest);
    }
}

// Takes the shares of a fill off the orders that it names, once where both are one.
fn settle_fill<S: Store>(store: &mut S, fill: Fill)
    ensures { Leaves (S.Store.room store.old) (after_fills (fill ∷ []) (S.Book.orders store.old)) (S.Store.room store.new) (S.Book.orders store.new) }
{
    take_off(store, fill.buyer, fill.quantity);
    if fill.seller != fill.buyer {
        take_off(store, fill.seller, fill.quantity);
    }
}

// Applies fills to a store: filled orders leave, and a rest keeps its place.
pub fn settle<S: Store>(store: &mut S, fills: &[Fill])
    ensures after { S.Book.orders store.new ≡ after_fills fills.now (S.Book.orders store.old) }
    ensures same { S.Store.room store.new ≡ S.Store.room store.old }
    ensures conserves { TradedOrOpen fills.now (S.Book.orders store.old) (S.Book.orders store.new) }
{
    for fill in fills {
        settle_fill(store, *fill);
    }
}
