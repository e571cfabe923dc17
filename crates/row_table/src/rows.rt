// An empty table, and where a number stands in it.
ghost use Rattle.std.specs.Prelude.{◌≡◌, min, [], IfOk};
ghost use Rattle.row_table.specs.Rows.{rows_of, place_of};

use crate::table::RowTable;
use orders::capacity::MOST;
use std::alloc::{AllocError, Global};

impl RowTable {
    // An empty table that holds at most `length` orders, and never more than 256.
    pub fn new(heap: Global, length: usize) -> Result<RowTable, AllocError>
        ensures { IfOk result (λ t. (rows_of t ≡ []) × (t.capacity ≡ min length 256)) }
    {
        let capacity = length.min(MOST);
        let rows = Vec::with_capacity(heap, capacity)?;
        Ok(RowTable { rows, capacity })
    }

    // The place of a number, if it is held.
    pub(crate) fn place_of(&self, number: u32) -> Option<usize>
        ensures { result ≡ place_of number (rows_of self.now) }
    {
        self.rows
            .iter()
            .position(|row| row.terms().number == number)
    }
}
