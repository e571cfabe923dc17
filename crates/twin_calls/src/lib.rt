// The calls that the delayed twin of a day makes.
#![tactic(auto)]

ghost use Rattle.std.specs.Prelude.{◌≡◌, ◌∷◌, ◌++◌, map, take, IfOk, OnOk};
ghost use Rattle.days.specs.Delayed.{outside, retold};
ghost use Rattle.days.specs.Delayed as delayed;
ghost use Rattle.days.specs.Journals.{told_by};
ghost use Rattle.days.specs.Sealed.{calls};
ghost use Rattle.days.specs.declared.call.Call.TheVariants.{Send};
ghost use Rattle.twin_calls.specs.Steps.{where_of, kept, Noted};

use days::answer::Answer;
use days::call::Call;
use days::journal::Journal;
use days::note::Note;
use orders::instruction::Instruction;
use orders::ticket::Ticket;
use std::alloc::{AllocError, Global};

// What waits in a freeze, oldest first.
type Held = Vec<Instruction<Ticket>>;

// Where a day is: in a freeze with what waits there, or in none, with a list that the next freeze fills anew.
#[derive(Drop)]
enum Place {
    PreCall(Held),
    Frozen(Held),
}

// A call of a freeze is made in it, unless it sends an instruction.
fn keep(twin: &mut Vec<Call>, call: Call) -> Result<(), AllocError>
    ensures { OnOk result (twin.new.items ≡ twin.old.items ++ kept call) }
{
    if let Call::Send(_) = call {
        return Ok(());
    }
    twin.push(call)?;
    Ok(())
}

// The call that ends a freeze, and then as many of the held instructions as it has receipts.
fn end(
    twin: &mut Vec<Call>,
    held: &[Instruction<Ticket>],
    call: Call,
    receipts: usize,
) -> Result<(), AllocError>
    ensures { OnOk result (twin.new.items ≡ twin.old.items ++ call ∷ map Send (take receipts held.now)) }
{
    twin.push(call)?;
    let told = held.iter().take(receipts);
    twin.extend(told.map(|instruction| Call::Send(*instruction)))?;
    Ok(())
}

// A note in a freeze, and where the day is after it.
fn in_freeze(twin: &mut Vec<Call>, held: Held, note: Note) -> Result<Place, AllocError>
    ensures { IfOk result (λ now. Noted (delayed.inside held.items) note twin.old.items twin.new.items (where_of now)) }
{
    let mut held = held;
    match note.answer {
        Answer::Held => {
            if let Call::Send(instruction) = note.call {
                held.push(instruction)?;
            }
            Ok(Place::Frozen(held))
        }
        Answer::Matched(_) | Answer::Lifted { .. } => {
            end(
                twin,
                held.as_slice(),
                note.call,
                note.answer.counts().receipts,
            )?;
            Ok(Place::PreCall(held))
        }
        Answer::Done(_) | Answer::Frozen | Answer::Refused(_) => {
            keep(twin, note.call)?;
            Ok(Place::Frozen(held))
        }
    }
}

// A note outside a freeze, and where the day is after it.
fn in_pre_call(twin: &mut Vec<Call>, spare: Held, note: Note) -> Result<Place, AllocError>
    ensures { IfOk result (λ now. Noted outside note twin.old.items twin.new.items (where_of now)) }
{
    let mut held = spare;
    held.clear();
    twin.push(note.call)?;
    match note.answer {
        Answer::Frozen => Ok(Place::Frozen(held)),
        _ => Ok(Place::PreCall(held)),
    }
}

fn retell(twin: &mut Vec<Call>, place: Place, note: Note) -> Result<Place, AllocError>
    ensures { IfOk result (λ now. Noted (where_of place) note twin.old.items twin.new.items (where_of now)) }
{
    match place {
        Place::Frozen(held) => in_freeze(twin, held, note),
        Place::PreCall(spare) => in_pre_call(twin, spare, note),
    }
}

// What a day held in a freeze its twin sends straight after it, and what was refused there it does not send.
pub fn twin_calls(heap: Global, journal: &Journal) -> Result<Vec<Call>, AllocError>
    ensures { IfOk result (λ v. v.items ≡ calls (retold outside (told_by journal.now))) }
{
    let mut twin = Vec::new(heap);
    let mut place = Place::PreCall(Vec::new(heap));
    for note in journal.notes() {
        place = retell(&mut twin, place, *note)?;
    }
    Ok(twin)
}
