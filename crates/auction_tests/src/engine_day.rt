// A day of the engine over any store, held against the reckoning after every call.
use crate::calls::{Answer, Call, ENTRIES, Market, NO_FILL, NO_RECEIPT};
use crate::reckoning::Reckoning;
use crate::resting::Resting;
use book::{Book, Store};
use chain_table::table::ChainTable;
use engine::frozen::Frozen;
use engine::pre_call::PreCall;
use locked_stock::hold::LockedStock;
use locked_stock::receipt::Receipt;
use orders::instruction::Instruction;
use orders::refusal::Refusal;
use orders::settings::Settings;
use orders::ticket::Ticket;
use row_table::table::RowTable;
use settling::fill::Fill;
use std::alloc::Global;
use std::process::Abort;
use std::test::Fail;

// The engine's day here and its reckoning stand apart from the crate of whole days, so that each of the six calls is tried by itself.
enum Phase {
    Open(PreCall),
    Locked(Frozen),
}

fn in_pre_call<S: Store>(phase: PreCall, call: Call, store: &mut S) -> (Phase, Answer) {
    let answer = match call {
        Call::Send(Instruction::Enter(ticket)) => phase.enter(store, ticket),
        Call::Send(Instruction::Change(ticket)) => phase.change(store, ticket),
        Call::Send(
            Instruction::Delete {
                number,
                participant,
            },
        ) => phase.delete(store, number, participant),
        Call::Freeze => return (Phase::Locked(phase.freeze()), Answer::Frozen),
        _ => return (Phase::Open(phase), Answer::Refused(Refusal::WrongPhase)),
    };
    match answer {
        Ok(effect) => (Phase::Open(phase), Answer::Done(effect)),
        Err(refusal) => (Phase::Open(phase), Answer::Refused(refusal)),
    }
}

fn wait(phase: &Frozen, instruction: Instruction<Ticket>, stock: &mut LockedStock<'_>) -> Answer {
    let answer = match instruction {
        Instruction::Enter(ticket) => phase.enter(stock, ticket),
        Instruction::Change(ticket) => phase.change(stock, ticket),
        Instruction::Delete {
            number,
            participant,
        } => phase.delete(stock, number, participant),
    };
    match answer {
        Ok(()) => Answer::Held,
        Err(refusal) => Answer::Refused(refusal),
    }
}

// The phase that a match or a lift leads to, and its answer.
fn ended<T>(res: Result<(PreCall, T), (Frozen, Refusal)>) -> (Phase, Result<T, Refusal>) {
    match res {
        Ok((phase, answer)) => (Phase::Open(phase), Ok(answer)),
        Err((phase, refusal)) => (Phase::Locked(phase), Err(refusal)),
    }
}

fn in_freeze<S: Store>(
    phase: Frozen,
    call: Call,
    store: &mut S,
    stock: &mut LockedStock<'_>,
    fills: &mut [Fill],
    receipts: &mut [Receipt],
) -> (Phase, Answer) {
    match call {
        Call::Send(instruction) => {
            let answer = wait(&phase, instruction, stock);
            (Phase::Locked(phase), answer)
        }
        Call::Freeze => (Phase::Locked(phase), Answer::Refused(Refusal::WrongPhase)),
        Call::Match {
            quote,
            fills: fill_entries,
            receipts: receipt_entries,
        } => {
            let fill_count = fill_entries.min(fills.len());
            let receipt_count = receipt_entries.min(receipts.len());
            let (phase, answer) = ended(phase.match_quote(
                store,
                stock,
                quote,
                &mut fills[0..fill_count],
                &mut receipts[0..receipt_count],
            ));
            match answer {
                Ok(matched) => (phase, Answer::Matched(matched)),
                Err(refusal) => (phase, Answer::Refused(refusal)),
            }
        }
        Call::Lift {
            receipts: receipt_entries,
        } => {
            let receipt_count = receipt_entries.min(receipts.len());
            let (phase, answer) = ended(phase.lift(store, stock, &mut receipts[0..receipt_count]));
            match answer {
                Ok(count) => (phase, Answer::Lifted(count)),
                Err(refusal) => (phase, Answer::Refused(refusal)),
            }
        }
    }
}

// The phase may not be let go: a freeze is lifted, with as many entries as any locked stock can ask for.
fn end<S: Store>(phase: Phase, store: &mut S, stock: &mut LockedStock<'_>) {
    let mut receipts = [NO_RECEIPT; 256];
    match phase {
        Phase::Open(_) => {}
        Phase::Locked(frozen) => match frozen.lift(store, stock, &mut receipts) {
            Ok(_) => {}
            Err(_) => unreachable(),
        },
    }
}

// The book holds what is reckoned, in this sequence.
fn has_book<B: Book>(book: &B, reckoned: &[Resting]) -> bool {
    book.count() == reckoned.len()
        && reckoned.iter().enumerate().all(|(place, order)| book
            .order_at(place)
            .is_some_and(|found| found.terms() == order.terms()))
}

fn is_left<B: Book>(
    day: &Reckoning,
    book: &B,
    waiting: usize,
    fills: &[Fill],
    receipts: &[Receipt],
) -> bool {
    day.held.as_ref().map_or(0, |held| held.len()) == waiting
        && &day.fills[0..] == fills
        && &day.receipts[0..] == receipts
        && has_book(book, day.book.as_slice())
}

// Does each call of a day answer, and leave the locked stock, the entries and the book, as is reckoned?
fn calls_alike<S: Store>(
    day: &mut Reckoning,
    settings: Settings,
    store: &mut S,
    stock: &mut LockedStock<'_>,
    fills: &mut [Fill],
    receipts: &mut [Receipt],
    calls: &[Call],
) -> bool {
    let mut phase = Phase::Open(PreCall::new(settings));
    let mut alike = true;
    for call in calls {
        let (next, answer) = match phase {
            Phase::Open(phase) => in_pre_call(phase, *call, store),
            Phase::Locked(phase) => in_freeze(phase, *call, store, stock, fills, receipts),
        };
        phase = next;
        if day.answer(*call) != answer || !is_left(day, store, stock.len(), fills, receipts) {
            alike = false;
        }
    }
    end(phase, store, stock);
    alike
}

fn day_over<S: Store>(
    rt: &impl Abort,
    heap: Global,
    market: Market,
    store: &mut S,
    calls: &[Call],
) -> Result<Reckoning, Fail> {
    let settings = Settings::new(market.lot, market.class)?;
    let empty = Instruction::Delete {
        number: 77,
        participant: 77,
    };
    let mut slots = [empty; ENTRIES];
    let count = market.stock_room.min(ENTRIES);
    let mut stock = LockedStock::new(&mut slots[0..count]);
    let mut fills = [NO_FILL; ENTRIES];
    let mut receipts = [NO_RECEIPT; ENTRIES];
    let mut day = Reckoning::new(heap, market);
    let alike = calls_alike(
        &mut day,
        settings,
        store,
        &mut stock,
        &mut fills,
        &mut receipts,
        calls,
    );
    assert!(rt; alike);
    Ok(day)
}

// A day that is as reckoned over both stores.
pub(crate) fn checked_day(
    rt: &impl Abort,
    heap: Global,
    market: Market,
    calls: &[Call],
) -> Result<Reckoning, Fail> {
    let mut rows = RowTable::new(heap, market.book_room)?;
    let _ = day_over(rt, heap, market, &mut rows, calls)?;
    let mut chain = ChainTable::new(heap, market.book_room)?;
    day_over(rt, heap, market, &mut chain, calls)
}
