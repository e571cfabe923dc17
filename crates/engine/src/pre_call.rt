// Pre-call: an instruction is carried out on arrival.
ghost use Rattle.std.specs.Prelude.{◌≡◌};
ghost use Rattle.orders.specs.Told.{grid_of};
ghost use Rattle.orders.specs.declared.instruction.Instruction.TheVariants.{Enter, Change, Delete};
ghost use Rattle.engine.specs.PreCalls.{grid_under, Sent};

use book::Store;
use instructions::carry_out::carry_out;
use instructions::effect::Effect;
use orders::instruction::Instruction;
use orders::refusal::Refusal;
use orders::settings::Settings;
use orders::ticket::Ticket;

// The phase: a moved value that holds the settings.
#[derive(Drop)]
pub struct PreCall {
    pub(crate) settings: Settings,
}

impl PreCall {
    pub fn new(settings: Settings) -> PreCall
        ensures { grid_under result ≡ grid_of settings }
    {
        PreCall { settings }
    }

    // Carries out an instruction.
    pub fn send<S: Store>(
        &self,
        store: &mut S,
        instruction: Instruction<Ticket>,
    ) -> Result<Effect, Refusal>
        ensures { Sent (grid_under self.now) instruction (S.Store.room store.old) (S.Book.orders store.old) result (S.Store.room store.new) (S.Book.orders store.new) }
    {
        carry_out(store, self.settings.check(instruction)?)
    }

    // Appends the order that a ticket asks for.
    pub fn enter<S: Store>(&self, store: &mut S, ticket: Ticket) -> Result<Effect, Refusal>
        ensures { Sent (grid_under self.now) (Enter ticket) (S.Store.room store.old) (S.Book.orders store.old) result (S.Store.room store.new) (S.Book.orders store.new) }
    {
        self.send(store, Instruction::Enter(ticket))
    }

    // Gives an order new prices and a new open quantity; it goes to the end.
    pub fn change<S: Store>(&self, store: &mut S, ticket: Ticket) -> Result<Effect, Refusal>
        ensures { Sent (grid_under self.now) (Change ticket) (S.Store.room store.old) (S.Book.orders store.old) result (S.Store.room store.new) (S.Book.orders store.new) }
    {
        self.send(store, Instruction::Change(ticket))
    }

    // Takes an order out.
    pub fn delete<S: Store>(
        &self,
        store: &mut S,
        number: u32,
        participant: u16,
    ) -> Result<Effect, Refusal>
        ensures { Sent (grid_under self.now) (Delete number participant) (S.Store.room store.old) (S.Book.orders store.old) result (S.Store.room store.new) (S.Book.orders store.new) }
    {
        self.send(
            store,
            Instruction::Delete {
                number,
                participant,
            },
        )
    }
}
