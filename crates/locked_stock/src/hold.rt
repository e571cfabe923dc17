// An instruction sent in a freeze waits in the locked stock.
ghost use Rattle.orders.specs.Checks.{checked};
ghost use Rattle.orders.specs.Told.{told, grid_of};
ghost use Rattle.locked_stock.specs.Holding.{Joined, HeldBy};

use orders::instruction::Instruction;
use orders::order::Order;
use orders::refusal::Refusal;
use orders::settings::Settings;
use orders::ticket::Ticket;
use waiting_line::line::WaitingLine;

// The waiting line, for instructions whose own fields are checked.
pub type LockedStock<'a> = WaitingLine<'a, Instruction<Order>>;

// An instruction whose own fields are checked joins the stock.
fn join(stock: &mut LockedStock<'_>, instruction: Instruction<Order>) -> Result<(), Refusal>
    ensures { Joined (told instruction) stock.old result stock.new }
{
    stock.put(instruction, Refusal::LockedStockFull)
}

// Checks what needs only the settings, and lets the instruction wait.
pub fn hold(
    stock: &mut LockedStock<'_>,
    settings: Settings,
    instruction: Instruction<Ticket>,
) -> Result<(), Refusal>
    ensures { HeldBy (checked (grid_of settings) instruction) stock.old result stock.new }
{
    join(stock, settings.check(instruction)?)
}
