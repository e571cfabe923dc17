// The table: one row an order, in the sequence of the chain.
ghost use Rattle.std.specs.Prelude.{◌≡◌, ◌≤◌, true, ◌++◌, vec_len, vec_capacity};
ghost use Rattle.book.specs.Lists.{distinct};
ghost use Rattle.chain_table.specs.Chains.{spot, used_rows, free_rows, rows_told, linked_both_ways, no_row_twice, all_below};

use crate::chain::Chain;

// Each row is in use or free; the rows in use are the list, from the first row along the chain.
// Rows are named by index, so that none moves when another leaves.
#[derive(Drop)]
pub struct ChainTable {
    pub(crate) chain: Chain,
    // how many rows are in use
    pub(crate) count: usize,
    // the first free row, if any row is free
    pub(crate) free: Option<u16>,
    pub(crate) capacity: usize,
    // there is memory for all rows, at most 256
    ghost most: { capacity ≤ 256 },
    ghost within: { vec_len chain.rows ≤ capacity },
    ghost reserved: { capacity ≤ vec_capacity chain.rows },
    ghost counted: { count ≤ vec_len chain.rows },
    // each row in use leads to its neighbours, and they lead back to it
    ghost linked: { linked_both_ways chain (used_rows chain count) ≡ true },
    // no row is used twice, free twice, or both
    ghost once: { no_row_twice (used_rows chain count ++ free_rows chain (spot free) count) ≡ true },
    // each is a row, and they are as many as there are: none is lost
    ghost present: { all_below (vec_len chain.rows) (used_rows chain count ++ free_rows chain (spot free) count) ≡ true },
    // numbers differ
    ghost apart: { distinct (rows_told chain count) ≡ true },
}
