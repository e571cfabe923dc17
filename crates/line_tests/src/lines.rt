// The waiting line beside a queue of the library.
use orders::refusal::Refusal;
use std::alloc::Global;
use std::collections::VecDeque;
use std::process::Abort;
use std::test::Fail;
use waiting_line::line::WaitingLine;

// A sequence of numbers that looks random. The generator is its own, so that this test keeps the numbers that it has.
fn next(state: u32) -> u32 {
    state.wrapping_mul(1_103_515_245).wrapping_add(12_345)
}

fn check_put(
    rt: &impl Abort,
    line: &mut WaitingLine<'_, u32>,
    queue: &mut VecDeque<u32>,
    record: u32,
) -> Result<(), Fail> {
    let answer = line.put(record, Refusal::LockedStockFull);
    if queue.len() == line.capacity() {
        assert_eq!(rt; answer, Err(Refusal::LockedStockFull));
        return Ok(());
    }
    queue.push_back(record)?;
    assert_eq!(rt; answer, Ok(()));
    Ok(())
}

// Puts and takes at random, then empties the line.
fn check_line(rt: &impl Abort, heap: Global, slots: &mut [u32]) -> Result<(), Fail> {
    let capacity = slots.len().min(256);
    let mut line = WaitingLine::new(slots);
    let mut queue = VecDeque::new(heap);
    assert_eq!(rt; line.capacity(), capacity);
    let mut state = 7;
    for record in 0..2_000 {
        state = next(state);
        // for 500 records the line fills, for 500 it empties, and so on
        if (state >> 16) % 4 > (record / 500) % 2 * 2 {
            check_put(rt, &mut line, &mut queue, record)?;
        } else {
            assert_eq!(rt; line.take(), queue.pop_front());
        }
        assert_eq!(rt; line.len(), queue.len());
        assert_eq!(rt; line.at(0), queue.front().copied());
        assert_eq!(rt; line.at(queue.len()), None);
    }
    for _ in 0..257 {
        assert_eq!(rt; line.take(), queue.pop_front());
    }
    assert_eq!(rt; line.len(), 0);
    Ok(())
}

#[test]
fn lines_of_many_lengths(rt: HostRuntime) -> Result<(), Fail> {
    for length in [0, 1, 2, 3, 255, 256, 257, 300] {
        let mut slots = vec![in rt.alloc(); 0; length]?;
        check_line(&rt, rt.alloc(), slots.as_mut_slice())?;
    }
    Ok(())
}

#[test]
fn slots_are_used_round(rt: HostRuntime) -> Result<(), Fail> {
    let mut slots = [90, 91, 92];
    {
        let mut line = WaitingLine::new(&mut slots);
        line.put(1, Refusal::LockedStockFull)?;
        line.put(2, Refusal::LockedStockFull)?;
        assert_eq!(rt; line.take(), Some(1));
        assert_eq!(rt; line.take(), Some(2));
        assert_eq!(rt; line.take(), None);
    }
    assert_eq!(rt; slots, [1, 2, 92]);
    {
        let mut line = WaitingLine::new(&mut slots);
        for record in [5, 6, 7] {
            line.put(record, Refusal::LockedStockFull)?;
        }
        assert_eq!(rt;
            line.put(8, Refusal::RequestListFull),
            Err(Refusal::RequestListFull)
        );
        assert_eq!(rt; line.take(), Some(5));
        line.put(8, Refusal::RequestListFull)?;
        assert_eq!(rt; line.at(2), Some(8));
        assert_eq!(rt; line.at(3), None);
    }
    assert_eq!(rt; slots, [8, 6, 7]);
    Ok(())
}

#[test]
fn slots_past_256_stay(rt: HostRuntime) -> Result<(), Fail> {
    let mut slots = [9; 258];
    {
        let mut line = WaitingLine::new(&mut slots);
        for record in 0..256 {
            line.put(record, Refusal::LockedStockFull)?;
        }
        assert_eq!(rt;
            line.put(256, Refusal::LockedStockFull),
            Err(Refusal::LockedStockFull)
        );
        assert_eq!(rt; line.take(), Some(0));
        line.put(256, Refusal::LockedStockFull)?;
        assert_eq!(rt; line.at(255), Some(256));
    }
    assert_eq!(rt; slots[0], 256);
    assert_eq!(rt; slots[255], 255);
    assert_eq!(rt; slots[256], 9);
    assert_eq!(rt; slots[257], 9);
    Ok(())
}
