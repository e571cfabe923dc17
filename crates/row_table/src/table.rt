// The table: one row an order, earliest first.
ghost use Rattle.std.specs.Prelude.{◌≡◌, ◌≤◌, true, map, vec_len, vec_capacity};
ghost use Rattle.orders.specs.Told.{terms_of};
ghost use Rattle.book.specs.Lists.{distinct};

use orders::order::Order;

// All memory is reserved when the table is made.
#[derive(Drop)]
pub struct RowTable {
    pub(crate) rows: Vec<Order>,
    pub(crate) capacity: usize,
    ghost most: { capacity ≤ 256 },
    ghost within: { vec_len rows ≤ capacity },
    ghost reserved: { capacity ≤ vec_capacity rows },
    ghost apart: { distinct (map terms_of rows.items) ≡ true },
}
