// An instruction, its own fields checked, carried out on any store.
ghost use Rattle.std.specs.Prelude.{◌≡◌};
ghost use Rattle.orders.specs.Told.{terms_of, told};
ghost use Rattle.orders.specs.declared.instruction.Instruction.TheVariants.{Enter, Change, Delete};
ghost use Rattle.book.specs.Lists.{found};
ghost use Rattle.instructions.specs.Effects.{Obeyed, carried_answer, carried_book};
ghost use Rattle.instructions.specs.Steps.{owned};
ghost use Rattle.instructions.specs.Conservation.{Conserved, about};

use crate::effect::Effect;
use book::find::find;
use book::{Book, Store};
use orders::instruction::Instruction;
use orders::order::Order;
use orders::refusal::Refusal;
use orders::terms::Terms;

// The terms of a participant's own order.
fn own_order<B: Book>(book: &B, number: u32, participant: u16) -> Result<Terms, Refusal>
    ensures { result ≡ owned participant (found number (B.Book.orders book.now)) }
{
    let terms = find(book, number).ok_or(Refusal::NumberUnknown)?.terms();
    if terms.participant != participant {
        return Err(Refusal::OtherParticipant);
    }
    Ok(terms)
}

fn enter<S: Store>(store: &mut S, order: Order) -> Result<Effect, Refusal>
    ensures { Obeyed (S.Store.room store.old) (Enter (terms_of order)) (S.Book.orders store.old) result (S.Store.room store.new) (S.Book.orders store.new) }
{
    store.append(order)?;
    Ok(Effect {
        added: order.terms().quantity,
        taken_off: 0,
    })
}

fn change<S: Store>(store: &mut S, order: Order) -> Result<Effect, Refusal>
    ensures { Obeyed (S.Store.room store.old) (Change (terms_of order)) (S.Book.orders store.old) result (S.Store.room store.new) (S.Book.orders store.new) }
{
    let new = order.terms();
    let old = own_order(store, new.number, new.participant)?;
    if !old.has_form_of(new) {
        return Err(Refusal::SideOrKind);
    }
    let _ = store.take_out(new.number);
    store.append(order)?;
    Ok(Effect {
        added: new.quantity.saturating_sub(old.quantity),
        taken_off: old.quantity.saturating_sub(new.quantity),
    })
}

fn delete<S: Store>(store: &mut S, number: u32, participant: u16) -> Result<Effect, Refusal>
    ensures { Obeyed (S.Store.room store.old) (Delete number participant) (S.Book.orders store.old) result (S.Store.room store.new) (S.Book.orders store.new) }
{
    let old = own_order(store, number, participant)?;
    let _ = store.take_out(number);
    Ok(Effect {
        added: 0,
        taken_off: old.quantity,
    })
}

// Carries out an instruction, or refuses it and changes nothing.
pub fn carry_out<S: Store>(
    store: &mut S,
    instruction: Instruction<Order>,
) -> Result<Effect, Refusal>
    ensures value { result ≡ carried_answer (S.Store.room store.old) (told instruction) (S.Book.orders store.old) }
    ensures after { S.Book.orders store.new ≡ carried_book (S.Store.room store.old) (told instruction) (S.Book.orders store.old) }
    ensures same { S.Store.room store.new ≡ S.Store.room store.old }
    ensures conserves { Conserved (about (told instruction)) result (S.Book.orders store.old) (S.Book.orders store.new) }
{
    match instruction {
        Instruction::Enter(order) => enter(store, order),
        Instruction::Change(order) => change(store, order),
        Instruction::Delete {
            number,
            participant,
        } => delete(store, number, participant),
    }
}
