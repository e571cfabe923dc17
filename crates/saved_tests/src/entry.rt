// The fields of a saved order as numbers, whatever they are, and a writer of the layout that shares no code with the engine.
use orders::terms::{Kind, Side, Terms};
use std::alloc::Global;
use std::test::Fail;

#[derive(Clone, Copy, PartialEq, Eq, Debug)]
pub(crate) struct Entry {
    pub(crate) number: u32,
    pub(crate) participant: u32,
    pub(crate) side: u32,
    pub(crate) kind: u32,
    pub(crate) quantity: u32,
    pub(crate) limit: u32,
    pub(crate) stop: u32,
}

// The fields that the terms of an order are saved by.
impl From<Terms> for Entry {
    fn from(value: Terms) -> Entry {
        let (kind, limit, stop) = match value.kind {
            Kind::Market => (0, 0, 0),
            Kind::Limit { limit } => (1, limit, 0),
            Kind::StopMarket { stop } => (2, 0, stop),
            Kind::StopLimit { limit, stop } => (3, limit, stop),
        };
        Entry {
            number: value.number,
            participant: u32::from(value.participant),
            side: match value.side {
                Side::Buy => 0,
                Side::Sell => 1,
            },
            kind,
            quantity: value.quantity,
            limit,
            stop,
        }
    }
}

// Writes a number into `size` bytes, the least first.
fn write(out: &mut Vec<u8>, number: u32, size: u32) -> Result<(), Fail> {
    let mut rest = number;
    for _ in 0..size {
        out.push((rest % 256) as u8)?;
        rest /= 256;
    }
    Ok(())
}

// A file of these entries, with any count and any record size in its head.
pub(crate) fn file(
    heap: Global,
    count: u32,
    record_size: u32,
    entries: &[Entry],
) -> Result<Vec<u8>, Fail> {
    let mut out = Vec::new(heap);
    write(&mut out, count, 4)?;
    write(&mut out, record_size, 4)?;
    for entry in entries {
        write(&mut out, entry.number, 4)?;
    }
    for entry in entries {
        write(&mut out, entry.participant, 2)?;
        write(&mut out, entry.side, 1)?;
        write(&mut out, entry.kind, 1)?;
        write(&mut out, entry.quantity, 4)?;
        write(&mut out, entry.limit, 4)?;
        write(&mut out, entry.stop, 4)?;
    }
    Ok(out)
}

// A file whose head tells the truth.
pub(crate) fn saved(heap: Global, entries: &[Entry]) -> Result<Vec<u8>, Fail> {
    file(heap, u32::try_from(entries.len())?, 16, entries)
}
