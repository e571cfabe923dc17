// A decoder written apart: byte by byte, with no code of the engine.
use crate::entry::Entry;
use std::alloc::Global;
use std::test::Fail;

// The first fault of bytes; that of a record is told by its number.
#[derive(Clone, Copy, PartialEq, Eq, Debug)]
pub(crate) enum Fault {
    Layout,
    Record { place: usize, fault: u8 },
}

// The number in `size` bytes from a place on; a byte that is not there counts as 0.
fn number_at(bytes: &[u8], at: usize, size: usize) -> u32 {
    let mut number = 0u32;
    let mut worth = 1u32;
    for byte in bytes.iter().skip(at).take(size) {
        number = u32::from(*byte).wrapping_mul(worth).wrapping_add(number);
        worth = worth.wrapping_mul(256);
    }
    number
}

fn entry_at(bytes: &[u8], count: usize, place: usize) -> Entry {
    let at = place
        .saturating_mul(16)
        .saturating_add(count.saturating_mul(4))
        .saturating_add(8);
    Entry {
        number: number_at(bytes, place.saturating_mul(4).saturating_add(8), 4),
        participant: number_at(bytes, at, 2),
        side: number_at(bytes, at.saturating_add(2), 1),
        kind: number_at(bytes, at.saturating_add(3), 1),
        quantity: number_at(bytes, at.saturating_add(4), 4),
        limit: number_at(bytes, at.saturating_add(8), 4),
        stop: number_at(bytes, at.saturating_add(12), 4),
    }
}

fn is_multiple(number: u32, step: u32, most: u32) -> bool {
    number > 0 && number <= most && number.checked_rem(step) == Some(0)
}

// The first fault of an entry, as if it stood alone.
fn fault_of(entry: Entry, lot: u32, tick: u32) -> Option<u8> {
    let wants_limit = entry.kind == 1 || entry.kind == 3;
    let wants_stop = entry.kind == 2 || entry.kind == 3;
    if entry.side > 1 || entry.kind > 3 {
        Some(0)
    } else if entry.number == 0 || entry.participant == 0 {
        Some(1)
    } else if !is_multiple(entry.quantity, lot, 1_000_000) {
        Some(2)
    } else if is_multiple(entry.limit, tick, 1_000_000_000) != wants_limit {
        Some(3)
    } else if is_multiple(entry.stop, tick, 1_000_000_000) != wants_stop {
        Some(3)
    } else if (entry.limit != 0) != wants_limit || (entry.stop != 0) != wants_stop {
        Some(3)
    } else {
        None
    }
}

// The entries that the head counts, good or not.
fn entries(heap: Global, bytes: &[u8]) -> Result<Vec<Entry>, Fail> {
    let count = number_at(bytes, 0, 4) as usize;
    let mut found = Vec::new(heap);
    for place in 0..count.min(256) {
        found.push(entry_at(bytes, count, place))?;
    }
    Ok(found)
}

fn is_laid_out(bytes: &[u8]) -> bool {
    let count = u64::from(number_at(bytes, 0, 4));
    let length = bytes.len() as u64;
    count <= 256
        && number_at(bytes, 4, 4) == 16
        && length == count.saturating_mul(20).saturating_add(8)
}

// The entries that bytes mean, or their first fault.
pub(crate) fn judge(
    heap: Global,
    bytes: &[u8],
    lot: u32,
    tick: u32,
) -> Result<Result<Vec<Entry>, Fault>, Fail> {
    if !is_laid_out(bytes) {
        return Ok(Err(Fault::Layout));
    }
    let found = entries(heap, bytes)?;
    let mut seen = Vec::new(heap);
    for (place, entry) in found.as_slice().iter().enumerate() {
        if let Some(fault) = fault_of(*entry, lot, tick) {
            return Ok(Err(Fault::Record { place, fault }));
        }
        if seen.as_slice().contains(&entry.number) {
            return Ok(Err(Fault::Record { place, fault: 4 }));
        }
        seen.push(entry.number)?;
    }
    Ok(Ok(found))
}
