// An instruction of a member: about a `Ticket` as it is sent, and about an `Order` once its own fields are checked.

#[derive(Clone, Copy, PartialEq, Eq, Debug)]
pub enum Instruction<T> {
    Enter(T),
    Change(T),
    Delete { number: u32, participant: u16 },
}
