// The table as a readable book and as a store.
ghost use Rattle.chain_table.specs.Rows.{rows_of};
ghost use Rattle.chain_table.specs.Kept.{table_kept};

use crate::table::ChainTable;
use book::{Book, Store};
use orders::order::Order;
use orders::refusal::Refusal;

impl Book for ChainTable {
    ghost orders = { rows_of };

    fn count(&self) -> usize {
        self.count
    }

    fn order_at(&self, place: usize) -> Option<Order> {
        if place >= self.count {
            return None;
        }
        let (_, order) = self.rows_in_use().nth(place)?;
        Some(order)
    }
}

// Both stores say these calls alike; how a row is found and moved is each one's own.
impl Store for ChainTable {
    ghost room = { λ t. t.capacity };

    ghost sound = { λ s. (table_kept s).sound };

    ghost within = { λ s. (table_kept s).within };

    fn capacity(&self) -> usize {
        self.capacity
    }

    fn append(&mut self, order: Order) -> Result<(), Refusal> {
        if self.row_of(order.terms().number).is_some() {
            return Err(Refusal::NumberHeld);
        }
        if self.count == self.capacity {
            return Err(Refusal::BookFull);
        }
        self.ensure_free_row(order);
        self.use_free_row(order);
        Ok(())
    }

    fn take_out(&mut self, number: u32) -> Option<Order> {
        let at = self.row_of(number)?;
        let order = self.chain.rows[at].order;
        self.release(at);
        Some(order)
    }

    fn lower(&mut self, number: u32, quantity: u32) -> bool {
        let Some(at) = self.row_of(number) else {
            return false;
        };
        let Some(order) = self.chain.rows[at].order.lowered(quantity) else {
            return false;
        };
        self.chain.refill(at, order);
        true
    }
}
