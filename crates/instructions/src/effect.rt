// What an accepted instruction answers.

// Shares added to what is open, and shares taken off.
#[derive(Clone, Copy, PartialEq, Eq, Debug)]
pub struct Effect {
    pub added: u32,
    pub taken_off: u32,
}
