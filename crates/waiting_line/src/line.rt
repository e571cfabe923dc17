// The line: its slots are used round and round.
ghost use Rattle.std.specs.Prelude.{◌-◌, ◌≤◌, min, length};

// `count` records wait, the oldest in the slot `first`. At most 256 of the slots are used.
// The slots are lent: a line takes no memory of its own.
#[derive(Drop)]
pub struct WaitingLine<'a, T> {
    pub(crate) slots: &'a mut [T],
    pub(crate) first: usize,
    pub(crate) count: usize,
    ghost within: { count ≤ min (length slots.now) 256 },
    ghost inside: { first ≤ min (length slots.now) 256 - 1 },
}
