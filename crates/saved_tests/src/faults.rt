// The faults: each at each field, the first of several, and layouts that do not fit.
use crate::entry::{Entry, file, saved};
use crate::reckoning::Fault;
use crate::setting::{agrees, good, good_entries, settings};
use orders::refusal::Refusal;
use saved_book::accept::accept;
use saved_book::fault::SavedFault;
use std::alloc::Global;
use std::process::Abort;
use std::test::Fail;

// Entries with ever fewer faults: the first has all of them, and the last but the number of an earlier record.
static FIRST: [Entry; 5] = [
    Entry {
        number: 0,
        participant: 0,
        side: 2,
        kind: 4,
        quantity: 0,
        limit: 5,
        stop: 5,
    },
    Entry {
        number: 0,
        participant: 0,
        side: 0,
        kind: 0,
        quantity: 0,
        limit: 5,
        stop: 5,
    },
    Entry {
        number: 1,
        participant: 7,
        side: 0,
        kind: 0,
        quantity: 0,
        limit: 5,
        stop: 5,
    },
    Entry {
        number: 1,
        participant: 7,
        side: 0,
        kind: 0,
        quantity: 10,
        limit: 5,
        stop: 5,
    },
    Entry {
        number: 1,
        participant: 7,
        side: 0,
        kind: 0,
        quantity: 10,
        limit: 0,
        stop: 0,
    },
];

// The entry as the last of three records has this fault, or none.
fn check_last(rt: &impl Abort, heap: Global, entry: Entry, fault: Option<u8>) -> Result<(), Fail> {
    let expected = match fault {
        Some(fault) => Err(Fault::Record { place: 2, fault }),
        None => Ok(()),
    };
    let bytes = saved(heap, &[good(1), good(2), entry])?;
    assert_eq!(rt; agrees(rt, heap, bytes.as_slice())?, expected);
    Ok(())
}

// The good entries: 5 a limit order, 6 a stop market order, 7 a stop limit order, 8 a market order.
#[test]
fn each_fault_at_each_field(rt: HostRuntime) -> Result<(), Fail> {
    for (entry, fault) in [
        (
            Entry {
                number: 4_294_967_295,
                ..good(5)
            },
            None,
        ),
        (
            Entry {
                participant: 65_535,
                ..good(5)
            },
            None,
        ),
        (Entry { side: 1, ..good(6) }, None),
        (Entry { side: 2, ..good(5) }, Some(0)),
        (
            Entry {
                side: 255,
                ..good(5)
            },
            Some(0),
        ),
        (Entry { kind: 4, ..good(5) }, Some(0)),
        (
            Entry {
                number: 0,
                ..good(5)
            },
            Some(1),
        ),
        (
            Entry {
                participant: 0,
                ..good(5)
            },
            Some(1),
        ),
        (
            Entry {
                quantity: 0,
                ..good(5)
            },
            Some(2),
        ),
        (
            Entry {
                quantity: 15,
                ..good(5)
            },
            Some(2),
        ),
        (
            Entry {
                quantity: 1_000_010,
                ..good(5)
            },
            Some(2),
        ),
        (
            Entry {
                quantity: 1_000_000,
                ..good(5)
            },
            None,
        ),
        (
            Entry {
                limit: 0,
                ..good(5)
            },
            Some(3),
        ),
        (
            Entry {
                limit: 1_005,
                ..good(5)
            },
            Some(3),
        ),
        (
            Entry {
                limit: 1_000_000_010,
                ..good(5)
            },
            Some(3),
        ),
        (
            Entry {
                limit: 1_000_000_000,
                ..good(5)
            },
            None,
        ),
        (
            Entry {
                stop: 990,
                ..good(5)
            },
            Some(3),
        ),
        (Entry { stop: 0, ..good(6) }, Some(3)),
        (
            Entry {
                stop: 995,
                ..good(6)
            },
            Some(3),
        ),
        (
            Entry {
                limit: 1_000,
                ..good(6)
            },
            Some(3),
        ),
        (
            Entry {
                limit: 0,
                ..good(7)
            },
            Some(3),
        ),
        (Entry { stop: 0, ..good(7) }, Some(3)),
        (
            Entry {
                limit: 1_000,
                ..good(8)
            },
            Some(3),
        ),
        (
            Entry {
                stop: 990,
                ..good(8)
            },
            Some(3),
        ),
        (
            Entry {
                number: 2,
                ..good(5)
            },
            Some(4),
        ),
        (
            Entry {
                number: 1,
                ..good(8)
            },
            Some(4),
        ),
    ] {
        check_last(&rt, rt.alloc(), entry, fault)?;
    }
    Ok(())
}

// Of several faults the first is told, in the sequence 0 to 4.
#[test]
fn the_first_fault_is_told(rt: HostRuntime) -> Result<(), Fail> {
    for (entry, fault) in FIRST.iter().zip(0u8..5) {
        check_last(&rt, rt.alloc(), *entry, Some(fault))?;
    }
    Ok(())
}

// Of several bad records the first is told.
#[test]
fn the_first_bad_record_is_told(rt: HostRuntime) -> Result<(), Fail> {
    let bytes = saved(rt.alloc(), &[good(1), FIRST[4], FIRST[0]])?;
    let first = Err(Fault::Record { place: 1, fault: 4 });
    assert_eq!(rt; agrees(&rt, rt.alloc(), bytes.as_slice())?, first);
    Ok(())
}

#[test]
fn every_other_length_is_refused(rt: HostRuntime) -> Result<(), Fail> {
    let bytes = saved(rt.alloc(), &[good(1), good(2)])?;
    let mut longer = saved(rt.alloc(), &[good(1), good(2)])?;
    for length in 0..bytes.len() {
        assert_eq!(rt;
            agrees(&rt, rt.alloc(), &bytes.as_slice()[0..length])?,
            Err(Fault::Layout)
        );
    }
    for _ in 0..40 {
        longer.push(0)?;
        assert_eq!(rt;
            agrees(&rt, rt.alloc(), longer.as_slice())?,
            Err(Fault::Layout)
        );
    }
    assert_eq!(rt; agrees(&rt, rt.alloc(), bytes.as_slice())?, Ok(()));
    Ok(())
}

// Good entries under a head with this count and this record size.
fn check_head(
    rt: &impl Abort,
    heap: Global,
    entries: &[Entry],
    count: u32,
    record_size: u32,
    expected: Result<(), Fault>,
) -> Result<(), Fail> {
    let bytes = file(heap, count, record_size, entries)?;
    assert_eq!(rt; agrees(rt, heap, bytes.as_slice())?, expected);
    Ok(())
}

#[test]
fn counts_and_record_sizes(rt: HostRuntime) -> Result<(), Fail> {
    for count in [0, 1, 256, 257] {
        let made = good_entries(rt.alloc(), count)?;
        let expected = if count == 257 {
            Err(Fault::Layout)
        } else {
            Ok(())
        };
        check_head(&rt, rt.alloc(), made.as_slice(), count, 16, expected)?;
        for record_size in [0, 15, 17, 4_096, 268_435_472] {
            check_head(
                &rt,
                rt.alloc(),
                made.as_slice(),
                count,
                record_size,
                Err(Fault::Layout),
            )?;
        }
        for other in [2, 255, 65_536, 4_294_967_295] {
            check_head(
                &rt,
                rt.alloc(),
                made.as_slice(),
                other,
                16,
                Err(Fault::Layout),
            )?;
        }
    }
    Ok(())
}

// The refusal of bytes that are not accepted.
fn refusal_of(bytes: &[u8]) -> Result<Option<Refusal>, Fail> {
    Ok(accept(settings()?, bytes).err().map(SavedFault::refusal))
}

// The refusals behind the two kinds of fault.
#[test]
fn faults_tell_their_refusals(rt: HostRuntime) -> Result<(), Fail> {
    let wrong = saved(rt.alloc(), &[good(1), good(1)])?;
    assert_eq!(rt; refusal_of(wrong.as_slice())?, Some(Refusal::SavedRecord));
    assert_eq!(rt; refusal_of(&[])?, Some(Refusal::SavedLayout));
    Ok(())
}
