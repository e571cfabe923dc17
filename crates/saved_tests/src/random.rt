// Random bytes, random files and damaged files, beside the decoder written apart.
use crate::entry::{Entry, file, saved};
use crate::setting::{agrees, good_entries};
use std::alloc::Global;
use std::test::Fail;
use test_random::Random;

// Up to 130 bytes, most of them small.
fn random_bytes(heap: Global, random: &mut Random) -> Result<Vec<u8>, Fail> {
    let mut bytes = Vec::new(heap);
    for _ in 0..random.below(131) {
        let most = if random.below(3) == 0 { 256 } else { 20 };
        bytes.push((random.below(most) % 256) as u8)?;
    }
    Ok(bytes)
}

// An entry of which any field may be wrong, though seldom.
fn random_entry(random: &mut Random, place: u32) -> Entry {
    let kind = if random.below(40) == 0 {
        4
    } else {
        random.below(4)
    };
    let odd = random.below(60);
    Entry {
        number: if random.below(12) == 0 {
            random.below(3)
        } else {
            place.saturating_add(3)
        },
        participant: random.below(90),
        side: if random.below(40) == 0 {
            2
        } else {
            random.below(2)
        },
        kind,
        quantity: if odd == 1 {
            5
        } else {
            random.up_to(100).saturating_mul(10)
        },
        limit: if (kind % 2 == 1) != (odd == 2) {
            random.up_to(100).saturating_mul(10)
        } else {
            0
        },
        stop: if (kind / 2 == 1) != (odd == 3) {
            random.up_to(100).saturating_mul(10)
        } else {
            0
        },
    }
}

// A file of at most 6 such entries; its head is seldom wrong.
fn random_file(heap: Global, random: &mut Random) -> Result<Vec<u8>, Fail> {
    let mut entries = Vec::new(heap);
    let count = random.below(7);
    for place in 0..count {
        entries.push(random_entry(random, place))?;
    }
    let told = if random.below(30) == 0 {
        random.below(7)
    } else {
        count
    };
    file(
        heap,
        told,
        if random.below(50) == 0 { 17 } else { 16 },
        entries.as_slice(),
    )
}

#[test]
fn random_bytes_and_files(rt: HostRuntime) -> Result<(), Fail> {
    let mut random = Random::new(3);
    let mut good = 0u32;
    for _ in 0..3_000 {
        let _ = agrees(
            &rt,
            rt.alloc(),
            random_bytes(rt.alloc(), &mut random)?.as_slice(),
        )?;
        let found = agrees(
            &rt,
            rt.alloc(),
            random_file(rt.alloc(), &mut random)?.as_slice(),
        )?;
        if found.is_ok() {
            good = good.saturating_add(1);
        }
    }
    // both sorts come often enough to mean something
    assert!(rt; good > 500);
    assert!(rt; good < 2_500);
    Ok(())
}

// Every byte of a file of 8 orders is changed, 12 times.
#[test]
fn one_byte_damaged(rt: HostRuntime) -> Result<(), Fail> {
    let mut random = Random::new(8);
    let entries = good_entries(rt.alloc(), 8)?;
    let right = saved(rt.alloc(), entries.as_slice())?;
    for place in 0..right.len() {
        let mut bytes = saved(rt.alloc(), entries.as_slice())?;
        for _ in 0..12 {
            if let Some(byte) = bytes.get_mut(place) {
                *byte = random.below(256) as u8;
            }
            let _ = agrees(&rt, rt.alloc(), bytes.as_slice())?;
        }
    }
    Ok(())
}
