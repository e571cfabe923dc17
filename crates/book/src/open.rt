// What is open in a book: the figure on a Specialist's panel.
ghost use Rattle.std.specs.Prelude.{◌≡◌};
ghost use Rattle.book.specs.Figures.{open_shares, open_figure};

use crate::Book;
use crate::iter::orders_of;

#[derive(Clone, Copy, PartialEq, Eq, Debug)]
pub struct OpenFigure {
    pub orders: usize,
    pub shares: u32,
}

fn open_shares<B: Book>(book: &B) -> u32
    ensures { result ≡ open_shares (B.Book.orders book.now) }
{
    let mut shares = 0;
    for order in orders_of(book) {
        shares += order.terms().quantity;
    }
    shares
}

// How many orders are open in a book, and how many shares.
pub fn open_figure<B: Book>(book: &B) -> OpenFigure
    ensures { result ≡ open_figure (B.Book.orders book.now) }
{
    OpenFigure {
        orders: book.count(),
        shares: open_shares(book),
    }
}
