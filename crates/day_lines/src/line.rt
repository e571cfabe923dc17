// What a line of a day says.
use orders::instruction::Instruction;
use orders::ticket::Ticket;

#[derive(Clone, Copy, PartialEq, Eq, Debug)]
pub enum Line {
    Settings { lot: u16, tick_class: u32 },
    Instruction(Instruction<Ticket>),
}
