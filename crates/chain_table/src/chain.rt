// The rows and how they are chained.
use orders::order::Order;

// The neighbours of a row: none before the first, and none after the last.
// There are at most 256 rows, so their indices are stored narrow.
#[derive(Clone, Copy)]
pub(crate) struct Links {
    pub(crate) before: Option<u16>,
    pub(crate) after: Option<u16>,
}

// A free row keeps its last order; its `after` is the next free row.
#[derive(Clone, Copy)]
pub(crate) struct Row {
    pub(crate) order: Order,
    pub(crate) links: Links,
}

// The chain is a ring that the end closes: the last row stands before it, and the first after it.
#[derive(Drop)]
pub(crate) struct Chain {
    pub(crate) rows: Vec<Row>,
    pub(crate) ends: Links,
}
