// All that waits in the locked stock is carried out, when a freeze ends.
ghost use Rattle.std.specs.Prelude.{◌≡◌, ◌≤◌, length};
ghost use Rattle.orders.specs.Told.{told};
ghost use Rattle.instructions.specs.Conservation.{about};
ghost use Rattle.waiting_line.specs.Lines.{room_of};
ghost use Rattle.locked_stock.specs.Receipts.{Released};
ghost use Rattle.locked_stock.specs.Steps.{Emptied};

use crate::hold::LockedStock;
use crate::receipt::Receipt;
use book::Store;
use instructions::carry_out::carry_out;
use orders::instruction::Instruction;
use orders::order::Order;
use orders::refusal::Refusal;

// The order number that an instruction names.
fn number_of(instruction: Instruction<Order>) -> u32
    ensures { result ≡ about (told instruction) }
{
    match instruction {
        Instruction::Enter(order) | Instruction::Change(order) => order.terms().number,
        Instruction::Delete { number, .. } => number,
    }
}

// Carries out what waits, oldest first, with a receipt each.
fn carry_out_all<S: Store>(
    stock: &mut LockedStock<'_>,
    store: &mut S,
    receipts: &mut [Receipt],
) -> usize
    requires { room_of stock.old.slots.now ≤ length receipts.old }
    ensures { Emptied (S.Store.room store.old) stock.old (S.Book.orders store.old) receipts.old result (S.Store.room store.new) stock.new (S.Book.orders store.new) receipts.new }
{
    // The count is the answer; a `for` over the entries would have to ask each time whether one still waits.
    let mut count = 0;
    while let Some(instruction) = stock.take() {
        receipts[count] = Receipt {
            number: number_of(instruction),
            answer: carry_out(store, instruction),
        };
        count += 1;
    }
    count
}

// Carries out all that waits, if there are receipt entries for as many as can wait.
pub fn release<S: Store>(
    stock: &mut LockedStock<'_>,
    store: &mut S,
    receipts: &mut [Receipt],
) -> Result<usize, Refusal>
    ensures { Released (S.Store.room store.old) stock.old (S.Book.orders store.old) receipts.old result (S.Store.room store.new) stock.new (S.Book.orders store.new) receipts.new }
{
    if receipts.len() < stock.capacity() {
        return Err(Refusal::ReceiptEntries);
    }
    Ok(carry_out_all(stock, store, receipts))
}
