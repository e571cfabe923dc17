// An order with its place in a book.
use orders::terms::Terms;

// The place is counted from 0, the earliest order first. The default fills the free places of a queue.
#[derive(Clone, Copy, PartialEq, Eq, Debug, Default)]
pub struct Placed {
    pub place: usize,
    pub terms: Terms,
}
