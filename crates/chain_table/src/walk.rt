// A walk along the chain.
ghost use Rattle.std.specs.Prelude.{◌≡◌, ℕ, true, List, ◌∷◌, map};
ghost use Rattle.std.specs.Iterator.{YieldsFirstBy, item_count};
ghost use Rattle.orders.specs.declared.terms.Terms.{Terms};
ghost use Rattle.chain_table.specs.Chains.{spot, among};
ghost use Rattle.chain_table.specs.Steps.{path_of, rest_from, row_and_terms, told_in, rows_along};

use crate::table::ChainTable;
use orders::order::Order;
use std::marker::Model;

// The rows in use that are still to be read, along the chain.
#[derive(Drop)]
pub(crate) struct RowsInUse<'a> {
    table: &'a ChainTable,
    next: Option<u16>,
}

// Clauses see each of those rows with the terms in it.
impl<'a> Model for RowsInUse<'a> {
    ghost Value = { List (ℕ × Terms) };

    ghost view = { λ w. map (told_in w.table.now.chain) (rest_from (spot w.next) (path_of w.table.now)) };

    ghost invariant = { λ w. among (spot w.next) (256 ∷ path_of w.table.now) ≡ true };
}

impl<'a> Iterator for RowsInUse<'a> {
    type Item = (usize, Order);

    ghost next_gives = { YieldsFirstBy row_and_terms (λ left. left) };

    ghost remaining = { item_count (λ left. left) };

    fn next(&mut self) -> Option<(usize, Order)> {
        let at = usize::from(self.next?);
        let row = &self.table.chain.rows[at];
        self.next = row.links.after;
        Some((at, row.order))
    }
}

impl ChainTable {
    // The rows in use with their orders, earliest first.
    pub(crate) fn rows_in_use(&self) -> RowsInUse<'_>
        ensures { result ≡ rows_along self.now }
    {
        RowsInUse {
            table: self,
            next: self.chain.ends.after,
        }
    }
}
