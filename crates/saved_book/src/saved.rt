// A book over saved bytes.
ghost use Rattle.std.specs.Prelude.{◌≡◌, length};
ghost use Rattle.orders.specs.Told.{grid_of};
ghost use Rattle.book.specs.Calls.{ReadAt};
ghost use Rattle.saved_book.specs.Calls.{orders_in};

use crate::layout::Layout;
use orders::order::Order;
use orders::settings::Settings;

// The orders stay in the bytes; each is read where it stands.
#[derive(Drop)]
pub struct SavedBook<'a> {
    pub(crate) settings: Settings,
    pub(crate) layout: Layout<'a>,
    ghost counted: { layout.count ≡ length (orders_in (grid_of settings) layout.bytes.now) },
}

impl SavedBook<'_> {
    // The order of record `place`, if there are so many.
    pub(crate) fn order(&self, place: usize) -> Option<Order>
        ensures { ReadAt (orders_in (grid_of self.now.settings) self.now.layout.bytes.now) place result }
    {
        if place >= self.layout.count {
            return None;
        }
        self.layout.order(self.settings, place).ok()
    }
}
