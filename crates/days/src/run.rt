// Whole days over stores. What a day is lent is named one by one, since the promises speak of each before and after.
ghost use Rattle.std.specs.Prelude.{◌≡◌, ◌<◌, false, length};
ghost use Rattle.orders.specs.Told.{grid_of};
ghost use Rattle.locked_stock.specs.Holding.{held_in};
ghost use Rattle.days.specs.Days.{in_pre_call};
ghost use Rattle.days.specs.Journals.{told_by, has_room};
ghost use Rattle.days.specs.Phases.{grid_in, state_of};
ghost use Rattle.days.specs.Runs.{DayRun};
ghost use Rattle.days.specs.Twins.{day_held, SideBySide};

use crate::call::Call;
use crate::journal::Journal;
use crate::phase::Phase;
use crate::turn::turn;
use book::Store;
use engine::pre_call::PreCall;
use locked_stock::hold::LockedStock;
use orders::settings::Settings;

// How a day ended: its phase, and how many of its calls were carried out.
pub struct Ended {
    pub phase: Phase,
    pub calls: usize,
}

// Carries out calls one after the other and notes each, as long as the journal has room.
fn run_from<S: Store>(
    start: Phase,
    store: &mut S,
    stock: &mut LockedStock<'_>,
    calls: &[Call],
    journal: &mut Journal,
) -> Ended
    ensures run { DayRun (grid_in start) (S.Store.room store.old) stock.old (state_of start (S.Book.orders store.old) stock.old) calls.now result.calls journal.old journal.new (S.Store.room store.new) stock.new (state_of result.phase (S.Book.orders store.new) stock.new) }
    ensures grid { grid_in result.phase ≡ grid_in start }
{
    let mut phase = start;
    for (carried, call) in calls.iter().enumerate() {
        if !journal.has_room() {
            return Ended {
                phase,
                calls: carried,
            };
        }
        phase = turn(phase, store, stock, *call, journal);
    }
    Ended {
        phase,
        calls: calls.len(),
    }
}

// A day from pre-call: its calls are carried out one after the other, and each is noted.
pub fn run_day<S: Store>(
    settings: Settings,
    store: &mut S,
    stock: &mut LockedStock<'_>,
    calls: &[Call],
    journal: &mut Journal,
) -> Ended
    ensures run { DayRun (grid_of settings) (S.Store.room store.old) stock.old (in_pre_call (S.Book.orders store.old) (held_in stock.old)) calls.now result.calls journal.old journal.new (S.Store.room store.new) stock.new (state_of result.phase (S.Book.orders store.new) stock.new) }
    ensures grid { grid_in result.phase ≡ grid_of settings }
{
    let start = Phase::PreCall(PreCall::new(settings));
    run_from(start, store, stock, calls, journal)
}

// How two days ended.
pub struct Twins {
    pub first: Ended,
    pub second: Ended,
}

// Two days side by side, over stores of whatever make.
pub fn run_twins<A: Store, B: Store>(
    settings: Settings,
    store: &mut A,
    stock: &mut LockedStock<'_>,
    calls: &[Call],
    journal: &mut Journal,
    other_store: &mut B,
    other_stock: &mut LockedStock<'_>,
    other_calls: &[Call],
    other_journal: &mut Journal,
) -> Twins
    ensures laws { SideBySide
        (day_held (grid_of settings) (A.Store.room store.old) stock.old (A.Book.orders store.old) calls.now result.first.calls (told_by journal.old) (told_by journal.new) (state_of result.first.phase (A.Book.orders store.new) stock.new))
        (day_held (grid_of settings) (B.Store.room other_store.old) other_stock.old (B.Book.orders other_store.old) other_calls.now result.second.calls (told_by other_journal.old) (told_by other_journal.new) (state_of result.second.phase (B.Book.orders other_store.new) other_stock.new)) }
    ensures first_carried { result.first.calls < length calls.now → has_room journal.new ≡ false }
    ensures second_carried { result.second.calls < length other_calls.now → has_room other_journal.new ≡ false }
{
    let first = run_day(settings, store, stock, calls, journal);
    let second = run_day(
        settings,
        other_store,
        other_stock,
        other_calls,
        other_journal,
    );
    Twins { first, second }
}
