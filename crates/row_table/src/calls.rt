// The table as a readable book and as a store.
ghost use Rattle.row_table.specs.Rows.{rows_of};
ghost use Rattle.row_table.specs.Kept.{table_kept};

use crate::table::RowTable;
use book::{Book, Store};
use orders::order::Order;
use orders::refusal::Refusal;

impl Book for RowTable {
    ghost orders = { rows_of };

    fn count(&self) -> usize {
        self.rows.len()
    }

    fn order_at(&self, place: usize) -> Option<Order> {
        self.rows.get(place).copied()
    }
}

impl Store for RowTable {
    ghost room = { λ t. t.capacity };

    ghost sound = { λ s. (table_kept s).sound };

    ghost within = { λ s. (table_kept s).within };

    fn capacity(&self) -> usize {
        self.capacity
    }

    fn append(&mut self, order: Order) -> Result<(), Refusal> {
        if self.place_of(order.terms().number).is_some() {
            return Err(Refusal::NumberHeld);
        }
        if self.rows.len() == self.capacity {
            return Err(Refusal::BookFull);
        }
        self.rows.push_reserved(order);
        Ok(())
    }

    // The rows behind the one that leaves move up.
    fn take_out(&mut self, number: u32) -> Option<Order> {
        let place = self.place_of(number)?;
        Some(self.rows.remove(place))
    }

    fn lower(&mut self, number: u32, quantity: u32) -> bool {
        let Some(place) = self.place_of(number) else {
            return false;
        };
        let Some(order) = self.rows[place].lowered(quantity) else {
            return false;
        };
        self.rows[place] = order;
        true
    }
}
