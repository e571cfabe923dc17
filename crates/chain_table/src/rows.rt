// What the table does with its rows.
ghost use Rattle.std.specs.Prelude.{◌≡◌, ◌<◌, min, false, [], IfOk, vec_len};
ghost use Rattle.orders.specs.Told.{terms_of};
ghost use Rattle.book.specs.Lists.{held};
ghost use Rattle.chain_table.specs.Rows.{rows_of};
ghost use Rattle.chain_table.specs.Steps.{number_in, row_holding, Holds, Freed, CameLast, Left};

use crate::chain::{Chain, Links};
use crate::table::ChainTable;
use orders::capacity::MOST;
use orders::order::Order;
use std::alloc::{AllocError, Global};

impl ChainTable {
    // An empty table that holds at most `length` orders, and never more than 256.
    pub fn new(heap: Global, length: usize) -> Result<ChainTable, AllocError>
        ensures { IfOk result (λ t. (rows_of t ≡ []) × (t.capacity ≡ min length 256)) }
    {
        let capacity = length.min(MOST);
        let rows = Vec::with_capacity(heap, capacity)?;
        let ends = Links {
            before: None,
            after: None,
        };
        Ok(ChainTable {
            chain: Chain { rows, ends },
            count: 0,
            free: None,
            capacity,
        })
    }

    // The row of a number, if it is held.
    pub(crate) fn row_of(&self, number: u32) -> Option<usize>
        ensures { result ≡ row_holding number self.now }
    {
        let (at, _) = self
            .rows_in_use()
            .find(|(_, order)| order.terms().number == number)?;
        Some(at)
    }

    // Adds a free row where there is none; until it is used it holds `order`.
    pub(crate) fn ensure_free_row(&mut self, order: Order)
        requires { self.old.count < self.old.capacity }
        ensures { Freed self.old self.new }
    {
        if self.count == self.chain.rows.len() {
            self.free = Some(self.count as u16);
            self.chain.push(order);
        }
    }

    // Puts an order into the first free row, and that row at the end of the chain.
    pub(crate) fn use_free_row(&mut self, order: Order)
        requires apart { held (terms_of order).number (rows_of self.old) ≡ false }
        requires spare { self.old.count < vec_len self.old.chain.rows }
        ensures { CameLast self.old self.new (terms_of order) }
    {
        let row = self.free.unwrap();
        let at = usize::from(row);
        self.free = self.chain.rows[at].links.after;
        let last = self.chain.ends.before;
        self.chain.refill(at, order);
        self.chain.join(last, Some(row));
        self.chain.join(Some(row), None);
        self.count += 1;
    }

    // Joins the neighbours of a row in use, and adds the row to the free ones.
    pub(crate) fn release(&mut self, at: usize)
        requires { Holds self.old (number_in self.old at) at }
        ensures { Left self.old self.new (number_in self.old at) }
    {
        let Links { before, after } = self.chain.rows[at].links;
        self.chain.join(before, after);
        let links = Links {
            before: None,
            after: self.free,
        };
        let row = Some(at as u16);
        self.chain.relink(row, links);
        self.free = row;
        self.count -= 1;
    }
}
