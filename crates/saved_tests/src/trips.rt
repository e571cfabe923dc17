// Round trips through both stores, the refusals of save and load, and the trial price over saved bytes.
use crate::entry::{Entry, saved};
use crate::setting::{good, good_entries, read_all, settings};
use book::{Book, Store};
use chain_table::table::ChainTable;
use orders::refusal::Refusal;
use pricing::quote::Quote;
use pricing::trial::{TrialPrice, trial_price};
use row_table::table::RowTable;
use saved_book::accept::accept;
use saved_book::fault::LoadFault;
use saved_book::load::load;
use saved_book::save::save;
use std::alloc::Global;
use std::process::Abort;
use std::test::Fail;

// Saving a book gives these bytes, and leaves what lies behind them; a buffer that is one byte too short stays as it was.
fn check_saved<B: Book>(rt: &impl Abort, heap: Global, book: &B, bytes: &[u8]) -> Result<(), Fail> {
    for spare in [0, 1, 40] {
        let length = bytes.len().saturating_add(spare);
        let mut out = vec![in heap; 170u8; length]?;
        assert_eq!(rt; save(book, &mut out), Ok(bytes.len()));
        assert!(rt; out.as_slice().starts_with(bytes));
        assert!(rt;
            out.as_slice()
                .iter()
                .skip(bytes.len())
                .all(|byte| *byte == 170)
        );
    }
    let mut short = vec![in heap; 170u8; bytes.len().saturating_sub(1)]?;
    assert_eq!(rt; save(book, &mut short), Err(Refusal::BufferShort));
    assert!(rt; short.as_slice().iter().all(|byte| *byte == 170));
    Ok(())
}

// The refusal of a load, or none.
fn refused<S: Store>(store: &mut S, bytes: &[u8]) -> Result<Option<Refusal>, Fail> {
    Ok(
        load(settings()?, bytes, store)
            .err()
            .map(LoadFault::refusal),
    )
}

// Bytes loaded into an empty store that has room for just these orders, and saved again.
fn there_and_back<S: Store>(
    rt: &impl Abort,
    heap: Global,
    store: &mut S,
    entries: &[Entry],
    bytes: &[u8],
) -> Result<(), Fail> {
    assert_eq!(rt; refused(store, bytes)?, None);
    let read = read_all(rt, heap, store)?;
    assert_eq!(rt; read.as_slice(), entries);
    check_saved(rt, heap, store, bytes)?;
    // a second load finds it taken, but for an empty book, and changes nothing
    let again = if entries.is_empty() {
        None
    } else {
        Some(Refusal::StoreUnfit)
    };
    assert_eq!(rt; refused(store, bytes)?, again);
    check_saved(rt, heap, store, bytes)
}

#[test]
fn saved_and_loaded(rt: HostRuntime) -> Result<(), Fail> {
    for count in [0, 1, 2, 7, 255, 256] {
        let entries = good_entries(rt.alloc(), count)?;
        let bytes = saved(rt.alloc(), entries.as_slice())?;
        let capacity = entries.len();
        let mut rows = RowTable::new(rt.alloc(), capacity)?;
        let mut chain = ChainTable::new(rt.alloc(), capacity)?;
        there_and_back(
            &rt,
            rt.alloc(),
            &mut rows,
            entries.as_slice(),
            bytes.as_slice(),
        )?;
        there_and_back(
            &rt,
            rt.alloc(),
            &mut chain,
            entries.as_slice(),
            bytes.as_slice(),
        )?;
        let book = accept(settings()?, bytes.as_slice())?;
        check_saved(&rt, rt.alloc(), &book, bytes.as_slice())?;
    }
    Ok(())
}

// A fault of the bytes is told before a store that does not fit; neither changes the store.
#[test]
fn loads_that_are_refused(rt: HostRuntime) -> Result<(), Fail> {
    let bytes = saved(rt.alloc(), &[good(1), good(2), good(3)])?;
    let wrong = saved(rt.alloc(), &[good(1), good(1)])?;
    let one = saved(rt.alloc(), &[good(9)])?;
    let mut small = RowTable::new(rt.alloc(), 2)?;
    assert_eq!(rt;
        refused(&mut small, bytes.as_slice())?,
        Some(Refusal::StoreUnfit)
    );
    assert_eq!(rt;
        refused(&mut small, wrong.as_slice())?,
        Some(Refusal::SavedRecord)
    );
    assert_eq!(rt; refused(&mut small, &[])?, Some(Refusal::SavedLayout));
    assert_eq!(rt; small.count(), 0);
    let mut taken = ChainTable::new(rt.alloc(), 256)?;
    assert_eq!(rt; refused(&mut taken, one.as_slice())?, None);
    assert_eq!(rt;
        refused(&mut taken, bytes.as_slice())?,
        Some(Refusal::StoreUnfit)
    );
    assert_eq!(rt;
        refused(&mut taken, wrong.as_slice())?,
        Some(Refusal::SavedRecord)
    );
    check_saved(&rt, rt.alloc(), &taken, one.as_slice())
}

// Buy 60 at 1,020 and sell 100 at 1,000, with a stop buy that the ask triggers: 1,000, 80 shares, surplus -20.
#[test]
fn trial_price_over_saved_bytes(rt: HostRuntime) -> Result<(), Fail> {
    let buy = Entry {
        number: 1,
        side: 0,
        quantity: 60,
        limit: 1_020,
        ..good(5)
    };
    let sell = Entry {
        number: 2,
        side: 1,
        quantity: 100,
        limit: 1_000,
        ..good(5)
    };
    let stop = Entry {
        number: 3,
        side: 0,
        quantity: 20,
        stop: 1_030,
        ..good(6)
    };
    let bytes = saved(rt.alloc(), &[buy, sell, stop])?;
    let quote = Quote {
        bid: 990,
        ask: 1_030,
        bid_volume: 0,
        ask_volume: 0,
    };
    let book = accept(settings()?, bytes.as_slice())?;
    let mut rows = RowTable::new(rt.alloc(), 3)?;
    assert_eq!(rt; refused(&mut rows, bytes.as_slice())?, None);
    let expected = TrialPrice::Priced {
        price: 1_000,
        shares: 80,
        surplus: -20,
        stops: 1,
    };
    assert_eq!(rt; trial_price(settings()?, &book, quote), Ok(expected));
    assert_eq!(rt; trial_price(settings()?, &rows, quote), Ok(expected));
    Ok(())
}
