// A store loaded from saved bytes.
ghost use Rattle.std.specs.Prelude.{◌≡◌, ◌≤◌, [], length};
ghost use Rattle.orders.specs.Told.{grid_of};
ghost use Rattle.book.specs.Calls.{Leaves};
ghost use Rattle.saved_book.specs.Calls.{takes_up, Load};

use crate::accept::accept;
use crate::fault::LoadFault;
use book::iter::orders_of;
use book::{Book, Store};
use orders::settings::Settings;

// Appends every order of a book to an empty store that has the room.
fn fill<B: Book, S: Store>(book: &B, store: &mut S)
    requires empty { S.Book.orders store.old ≡ [] }
    requires room { length (B.Book.orders book.now) ≤ S.Store.room store.old }
    ensures { Leaves (S.Store.room store.old) (B.Book.orders book.now) (S.Store.room store.new) (S.Book.orders store.new) }
{
    for order in orders_of(book) {
        // no number is held yet, and there is room: it is never refused
        let _ = store.append(order);
    }
}

// Is the store empty, with room for `count` orders?
fn takes<S: Store>(store: &S, count: usize) -> bool
    ensures { result ≡ takes_up (S.Store.room store.now) (S.Book.orders store.now) count }
{
    store.count() == 0 && count <= store.capacity()
}

// Loads the saved book into an empty store, or refuses and changes nothing.
pub fn load<S: Store>(settings: Settings, bytes: &[u8], store: &mut S) -> Result<(), LoadFault>
    ensures { Load (grid_of settings) bytes.now (S.Store.room store.old) (S.Book.orders store.old) result (S.Store.room store.new) (S.Book.orders store.new) }
{
    let book = accept(settings, bytes)?;
    if !takes(store, book.count()) {
        return Err(LoadFault::StoreUnfit);
    }
    fill(&book, store);
    Ok(())
}
