// A readable book and a store, each told by the list of its orders, earliest first.
#![tactic(auto)]

ghost use Rattle.std.specs.Prelude.{ℕ, ◌≤◌, List, length};
ghost use Rattle.orders.specs.Told.{terms_of};
ghost use Rattle.orders.specs.declared.terms.Terms.{Terms};
ghost use Rattle.book.specs.Calls.{Counted, ReadAt, ToldCapacity, Appended, TakenOut, Lowered};
ghost use Rattle.book.specs.Lists.{Sound};

use orders::order::Order;
use orders::refusal::Refusal;

pub mod find;
pub mod iter;
pub mod open;

// A book that can be read.
// Each call tells that the list is sound; as a law, its proof for saved bytes would stand among the definitions.
pub trait Book {
    // the terms of its orders, earliest first
    ghost orders: { Self → List Terms };

    // How many orders there are.
    fn count(&self) -> usize
        ensures { Counted (orders self.now) result };

    // The order at a place counted from 0.
    fn order_at(&self, place: usize) -> Option<Order>
        ensures { ReadAt (orders self.now) place result };
}

// A book that can be changed.
// That its capacity stays is told by each call, since it relates the store before the call to the store after it.
pub trait Store: Book {
    // its capacity
    ghost room: { Self → ℕ };

    // How many orders it can hold: at most 256.
    fn capacity(&self) -> usize
        ensures { ToldCapacity (room self.now) (Self.Book.orders self.now) result };

    // Puts an order at the end.
    fn append(&mut self, order: Order) -> Result<(), Refusal>
        ensures { Appended (room self.old) (Self.Book.orders self.old) (terms_of order) result (room self.new) (Self.Book.orders self.new) };

    // Removes the order of a number; the rest keep their sequence.
    fn take_out(&mut self, number: u32) -> Option<Order>
        ensures { TakenOut (room self.old) (Self.Book.orders self.old) number result (room self.new) (Self.Book.orders self.new) };

    // Sets the open quantity of a number to one from 1 to the present one; the order keeps its place.
    fn lower(&mut self, number: u32, quantity: u32) -> bool
        ensures { Lowered (room self.old) (Self.Book.orders self.old) number quantity result (room self.new) (Self.Book.orders self.new) };

    ghost sound: { (s : Self) → Sound (Self.Book.orders s) };

    ghost within: { (s : Self) → length (Self.Book.orders s) ≤ room s };
}
