// What the tests share: two books compared.
use book::Book;
use std::process::Abort;

// Both books hold the same orders in the same sequence.
pub(crate) fn check_same<A: Book, B: Book>(rt: &impl Abort, a: &A, b: &B) {
    assert_eq!(rt; a.count(), b.count());
    // each place is asked for, and those past the end too
    for place in 0..257 {
        assert_eq!(rt; a.order_at(place), b.order_at(place));
    }
}
