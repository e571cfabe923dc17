// What the tests share: a lot of 10 and a tick of 10, good entries, books as entries.
use crate::entry::Entry;
use crate::reckoning::{Fault, judge};
use book::Book;
use book::iter::orders_of;
use orders::settings::Settings;
use saved_book::accept::accept;
use saved_book::fault::SavedFault;
use std::alloc::Global;
use std::process::Abort;
use std::test::Fail;

pub(crate) fn settings() -> Result<Settings, Fail> {
    Ok(Settings::new(10, 3)?)
}

// A good order of each kind.
pub(crate) fn good(number: u32) -> Entry {
    let kind = number % 4;
    Entry {
        number,
        participant: number.min(65_535),
        side: number % 2,
        kind,
        quantity: 20,
        limit: if kind == 1 || kind == 3 { 1_000 } else { 0 },
        stop: if kind == 2 || kind == 3 { 990 } else { 0 },
    }
}

pub(crate) fn good_entries(heap: Global, count: u32) -> Result<Vec<Entry>, Fail> {
    let mut made = Vec::new(heap);
    for number in 1..=count {
        made.push(good(number))?;
    }
    Ok(made)
}

pub(crate) fn read_all<B: Book>(
    rt: &impl Abort,
    heap: Global,
    book: &B,
) -> Result<Vec<Entry>, Fail> {
    let mut read = Vec::new(heap);
    for order in orders_of(book) {
        read.push(Entry::from(order.terms()))?;
    }
    assert_eq!(rt; book.count(), read.len());
    assert!(rt; (read.len()..300).all(|place| book.order_at(place).is_none()));
    Ok(read)
}

impl From<SavedFault> for Fault {
    fn from(value: SavedFault) -> Fault {
        match value {
            SavedFault::Layout => Fault::Layout,
            SavedFault::Record { place, fault } => Fault::Record {
                place,
                fault: fault.number(),
            },
        }
    }
}

// The engine says of the bytes what the decoder written apart says.
pub(crate) fn agrees(
    rt: &impl Abort,
    heap: Global,
    bytes: &[u8],
) -> Result<Result<(), Fault>, Fail> {
    match (
        accept(settings()?, bytes).map_err(Fault::from),
        judge(heap, bytes, 10, 10)?,
    ) {
        (Ok(book), Ok(entries)) => {
            assert_eq!(rt; read_all(rt, heap, &book)?, entries);
            Ok(Ok(()))
        }
        (accepted, judged) => {
            let expected = judged.map(|_| ());
            assert_eq!(rt; accepted.map(|_| ()), expected);
            Ok(expected)
        }
    }
}
