// A book written as bytes.
ghost use Rattle.std.specs.Prelude.{◌≡◌, ℕ, ◌+◌, ◌*◌, ◌≤◌, List, ◌++◌, length};
ghost use Rattle.std.specs.List.{flat_map, AllByRecursion};
ghost use Rattle.orders.specs.declared.terms.Terms.{Terms};
ghost use Rattle.saved_book.specs.Calls.{Save};
ghost use Rattle.saved_book.specs.Encoding.{four, number_bytes, record_bytes};
ghost use Rattle.saved_book.specs.Steps.{laid, FitsItsBytes};

use crate::bytes::put;
use crate::records::record_bytes;
use book::Book;
use book::iter::orders_of;
use orders::refusal::Refusal;
use orders::terms::Terms;

// Writes the count and the size of a record.
fn put_head(out: &mut [u8], count: usize)
    requires few { count ≤ 256 }
    requires long { 8 ≤ length out.old }
    ensures { out.new ≡ laid 0 (four count ++ four 16) out.old }
{
    put(out, 0, &(count as u32).to_le_bytes());
    put(out, 4, &16u32.to_le_bytes());
}

// What one part of a saved book has of each order: `N` bytes.
// A bound `Fn` may not name `N`, so the two parts are types and not closures.
trait Part<const N: usize> {
    ghost part: { Terms → List ℕ };

    fn part_of(terms: Terms) -> [u8; N]
        ensures { result ≡ part terms };
}

struct Number;

impl Part<4> for Number {
    ghost part = { number_bytes };

    fn part_of(terms: Terms) -> [u8; 4] {
        terms.number.to_le_bytes()
    }
}

struct Record;

impl Part<16> for Record {
    ghost part = { record_bytes };

    fn part_of(terms: Terms) -> [u8; 16] {
        record_bytes(terms)
    }
}

// Writes the part of each order, one behind another from a place on.
fn put_each<P: Part<N>, const N: usize, B: Book>(book: &B, out: &mut [u8], at: usize)
    requires { at + N * length (B.Book.orders book.now) ≤ length out.old }
    ensures after { out.new ≡ laid at (flat_map P.Part.part (B.Book.orders book.now)) out.old }
    ensures fit { AllByRecursion FitsItsBytes (B.Book.orders book.now) }
{
    // chunks of a lent slice do not tell a proof what is written to them, so each part has its place
    for (place, order) in orders_of(book).enumerate() {
        put(out, at + N * place, &P::part_of(order.terms()));
    }
}

// Writes a book into a buffer, and tells how many bytes that took.
pub fn save<B: Book>(book: &B, out: &mut [u8]) -> Result<usize, Refusal>
    ensures { Save (B.Book.orders book.now) out.old result out.new }
{
    let count = book.count();
    let size = 8 + 20 * count;
    if out.len() < size {
        return Err(Refusal::BufferShort);
    }
    put_head(out, count);
    put_each::<Number, 4, B>(book, out, 8);
    put_each::<Record, 16, B>(book, out, 8 + 4 * count);
    Ok(size)
}
