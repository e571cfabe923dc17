// One call of a day, carried out and noted.
ghost use Rattle.std.specs.Prelude.{◌≡◌, ℕ, true, List, [], length};
ghost use Rattle.orders.specs.declared.instruction.Instruction.{Instruction};
ghost use Rattle.orders.specs.declared.order.Order.{Order};
ghost use Rattle.waiting_line.specs.declared.line.WaitingLine.{WaitingLine};
ghost use Rattle.waiting_line.specs.Lines.{room_of};
ghost use Rattle.locked_stock.specs.Holding.{held_in};
ghost use Rattle.locked_stock.specs.Receipts.{entries_fault};
ghost use Rattle.locked_stock.specs.declared.receipt.Receipt.{Receipt};
ghost use Rattle.settling.specs.declared.fill.Fill.{Fill};
ghost use Rattle.engine.specs.Matches.{grid_frozen};
ghost use Rattle.engine.specs.PreCalls.{grid_under};
ghost use Rattle.days.specs.Days.{in_pre_call, in_freeze};
ghost use Rattle.days.specs.Journals.{told_by, has_room};
ghost use Rattle.days.specs.Phases.{grid_in, state_of, rules_of};
ghost use Rattle.days.specs.Steps.{Bare, StockKept, Turned, CarriedOut, SameFault, Passed};
ghost use Rattle.days.specs.declared.call.Call.TheVariants.{Match, Lift};

use crate::answer::Answer;
use crate::call::Call;
use crate::journal::Journal;
use crate::note::Note;
use crate::phase::Phase;
use arrayvec::ArrayVec;
use book::{Book, Store};
use engine::frozen::Frozen;
use engine::pre_call::PreCall;
use instructions::effect::Effect;
use locked_stock::hold::LockedStock;
use locked_stock::receipt::Receipt;
use orders::capacity::MOST;
use orders::refusal::Refusal;
use orders::terms::Terms;
use pricing::gather::triggered_orders;
use pricing::quote::Quote;
use settling::fill::Fill;

// What stands in an array where nothing is written.
const NO_FILL: Fill = Fill {
    buyer: 0,
    seller: 0,
    price: 0,
    quantity: 0,
};

const NO_RECEIPT: Receipt = Receipt {
    number: 0,
    answer: Ok(Effect {
        added: 0,
        taken_off: 0,
    }),
};

// A call in pre-call: the phase after it, and its answer.
fn carry_out_in_pre_call<S: Store>(pre_call: PreCall, store: &mut S, call: Call) -> (Phase, Answer)
    ensures bare { Bare result.1 }
    ensures carried { (l : WaitingLine (Instruction Order)) (fills : List Fill) (receipts : List Receipt) → CarriedOut (grid_under pre_call) (S.Store.room store.old) l (in_pre_call (S.Book.orders store.old) (held_in l)) call result.1 fills receipts (grid_in result.0) (S.Store.room store.new) l (state_of result.0 (S.Book.orders store.new) l) }
{
    match call {
        Call::Send(instruction) => {
            let answer = pre_call.send(store, instruction).into();
            (Phase::PreCall(pre_call), answer)
        }
        Call::Freeze => (Phase::Frozen(pre_call.freeze()), Answer::Frozen),
        Call::Match { .. } | Call::Lift { .. } => {
            (
                Phase::PreCall(pre_call),
                Answer::Refused(Refusal::WrongPhase),
            )
        }
    }
}

// A match over as many entries as the call lends, or 256.
fn match_over<S: Store>(
    frozen: Frozen,
    store: &mut S,
    stock: &mut LockedStock<'_>,
    quote: Quote,
    filled: &mut [Fill],
    told: &mut [Receipt],
) -> (Phase, Answer)
    ensures { (fills receipts : ℕ) → SameFault (grid_frozen frozen) stock.old (S.Book.orders store.old) quote (length filled.old) (length told.old) fills receipts →
        CarriedOut (grid_frozen frozen) (S.Store.room store.old) stock.old (in_freeze (S.Book.orders store.old) (held_in stock.old)) (Match quote fills receipts) result.1 filled.new told.new (grid_in result.0) (S.Store.room store.new) stock.new (state_of result.0 (S.Book.orders store.new) stock.new) }
{
    match frozen.match_quote(store, stock, quote, filled, told) {
        Ok((pre_call, matched)) => (Phase::PreCall(pre_call), Answer::Matched(matched)),
        Err((frozen, refusal)) => (Phase::Frozen(frozen), Answer::Refused(refusal)),
    }
}

// A lift over as many entries as the call lends, or 256.
fn lift_over<S: Store>(
    frozen: Frozen,
    store: &mut S,
    stock: &mut LockedStock<'_>,
    told: &mut [Receipt],
) -> (Phase, Answer)
    ensures { (receipts : ℕ) (fills : List Fill) → entries_fault (length told.old) (room_of stock.old.slots.now) ≡ entries_fault receipts (room_of stock.old.slots.now) →
        CarriedOut (grid_frozen frozen) (S.Store.room store.old) stock.old (in_freeze (S.Book.orders store.old) (held_in stock.old)) (Lift receipts) result.1 fills told.new (grid_in result.0) (S.Store.room store.new) stock.new (state_of result.0 (S.Book.orders store.new) stock.new) }
{
    match frozen.lift(store, stock, told) {
        Ok((pre_call, receipts)) => (Phase::PreCall(pre_call), Answer::Lifted { receipts }),
        Err((frozen, refusal)) => (Phase::Frozen(frozen), Answer::Refused(refusal)),
    }
}

// A call in pre-call, noted; it triggers, fills and tells nothing.
fn turn_in_pre_call<S: Store>(
    pre_call: PreCall,
    store: &mut S,
    call: Call,
    journal: &mut Journal,
) -> Phase
    requires { has_room journal.old ≡ true }
    ensures { (l : WaitingLine (Instruction Order)) → Passed (grid_under pre_call) (S.Store.room store.old) l (in_pre_call (S.Book.orders store.old) (held_in l)) call (told_by journal.old) (told_by journal.new) (grid_in result) (S.Store.room store.new) l (state_of result (S.Book.orders store.new) l) }
{
    let (phase, answer) = carry_out_in_pre_call(pre_call, store, call);
    journal.note(Note { call, answer }, &[], &[], &[]);
    phase
}

// A match with as many entries as the call lends, in front of the arrays.
fn match_within<S: Store>(
    frozen: Frozen,
    store: &mut S,
    stock: &mut LockedStock<'_>,
    quote: Quote,
    fills: usize,
    receipts: usize,
    filled: &mut [Fill; MOST],
    told: &mut [Receipt; MOST],
) -> (Phase, Answer)
    ensures { CarriedOut (grid_frozen frozen) (S.Store.room store.old) stock.old (in_freeze (S.Book.orders store.old) (held_in stock.old)) (Match quote fills receipts) result.1 filled.new told.new (grid_in result.0) (S.Store.room store.new) stock.new (state_of result.0 (S.Book.orders store.new) stock.new) }
{
    let filled = &mut filled[0..fills.min(MOST)];
    let told = &mut told[0..receipts.min(MOST)];
    match_over(frozen, store, stock, quote, filled, told)
}

// A match in a freeze, noted with what it triggers, fills and tells.
fn turn_by_match<S: Store>(
    frozen: Frozen,
    store: &mut S,
    stock: &mut LockedStock<'_>,
    quote: Quote,
    fills: usize,
    receipts: usize,
    journal: &mut Journal,
) -> Phase
    requires { has_room journal.old ≡ true }
    ensures { Passed (grid_frozen frozen) (S.Store.room store.old) stock.old (in_freeze (S.Book.orders store.old) (held_in stock.old)) (Match quote fills receipts) (told_by journal.old) (told_by journal.new) (grid_in result) (S.Store.room store.new) stock.new (state_of result (S.Book.orders store.new) stock.new) }
{
    let mut filled = [NO_FILL; MOST];
    let mut told = [NO_RECEIPT; MOST];
    let stops = triggered_orders(store, quote);
    let (phase, answer) = match_within(
        frozen,
        store,
        stock,
        quote,
        fills,
        receipts,
        &mut filled,
        &mut told,
    );
    let call = Call::Match {
        quote,
        fills,
        receipts,
    };
    journal.note(Note { call, answer }, &stops, &filled, &told);
    phase
}

// A lift with as many entries as the call lends, in front of the array.
fn lift_within<S: Store>(
    frozen: Frozen,
    store: &mut S,
    stock: &mut LockedStock<'_>,
    receipts: usize,
    told: &mut [Receipt; MOST],
) -> (Phase, Answer)
    ensures { CarriedOut (grid_frozen frozen) (S.Store.room store.old) stock.old (in_freeze (S.Book.orders store.old) (held_in stock.old)) (Lift receipts) result.1 [] told.new (grid_in result.0) (S.Store.room store.new) stock.new (state_of result.0 (S.Book.orders store.new) stock.new) }
{
    lift_over(frozen, store, stock, &mut told[0..receipts.min(MOST)])
}

// A lift in a freeze, noted with what it tells.
fn turn_by_lift<S: Store>(
    frozen: Frozen,
    store: &mut S,
    stock: &mut LockedStock<'_>,
    receipts: usize,
    journal: &mut Journal,
) -> Phase
    requires { has_room journal.old ≡ true }
    ensures { Passed (grid_frozen frozen) (S.Store.room store.old) stock.old (in_freeze (S.Book.orders store.old) (held_in stock.old)) (Lift receipts) (told_by journal.old) (told_by journal.new) (grid_in result) (S.Store.room store.new) stock.new (state_of result (S.Book.orders store.new) stock.new) }
{
    let mut told = [NO_RECEIPT; MOST];
    let (phase, answer) = lift_within(frozen, store, stock, receipts, &mut told);
    let call = Call::Lift { receipts };
    journal.note(Note { call, answer }, &[], &[], &told);
    phase
}

// A call in a freeze, noted. Only the calls that end the freeze need arrays.
fn turn_in_freeze<S: Store>(
    frozen: Frozen,
    store: &mut S,
    stock: &mut LockedStock<'_>,
    call: Call,
    journal: &mut Journal,
) -> Phase
    requires { has_room journal.old ≡ true }
    ensures { Passed (grid_frozen frozen) (S.Store.room store.old) stock.old (in_freeze (S.Book.orders store.old) (held_in stock.old)) call (told_by journal.old) (told_by journal.new) (grid_in result) (S.Store.room store.new) stock.new (state_of result (S.Book.orders store.new) stock.new) }
{
    match call {
        Call::Send(instruction) => {
            let answer = frozen.send(stock, instruction).into();
            journal.note(Note { call, answer }, &[], &[], &[]);
            Phase::Frozen(frozen)
        }
        Call::Freeze => {
            let answer = Answer::Refused(Refusal::WrongPhase);
            journal.note(Note { call, answer }, &[], &[], &[]);
            Phase::Frozen(frozen)
        }
        Call::Match {
            quote,
            fills,
            receipts,
        } => turn_by_match(frozen, store, stock, quote, fills, receipts, journal),
        Call::Lift { receipts } => turn_by_lift(frozen, store, stock, receipts, journal),
    }
}

// One call: what it answers is noted, and the phase after it is told.
pub(crate) fn turn<S: Store>(
    phase: Phase,
    store: &mut S,
    stock: &mut LockedStock<'_>,
    call: Call,
    journal: &mut Journal,
) -> Phase
    requires room { has_room journal.old ≡ true }
    ensures turned { Turned (rules_of (grid_in phase) (S.Store.room store.old) stock.old) (state_of phase (S.Book.orders store.old) stock.old) call (told_by journal.old) (told_by journal.new) (state_of result (S.Book.orders store.new) stock.new) }
    ensures grid { grid_in result ≡ grid_in phase }
    ensures kept { StockKept stock.old stock.new }
    ensures same { S.Store.room store.new ≡ S.Store.room store.old }
{
    match phase {
        Phase::PreCall(pre_call) => turn_in_pre_call(pre_call, store, call, journal),
        Phase::Frozen(frozen) => turn_in_freeze(frozen, store, stock, call, journal),
    }
}
