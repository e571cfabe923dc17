// The calls of a line.
ghost use Rattle.std.specs.Prelude.{◌≡◌, ◌≤◌, [], length};
ghost use Rattle.std.specs.List.{slice_get};
ghost use Rattle.waiting_line.specs.Lines.{room_of, waiting, Put, Taken};

use crate::line::WaitingLine;
use orders::capacity::MOST;
use orders::refusal::Refusal;

impl<'a, T: Copy> WaitingLine<'a, T> {
    // An empty line over these slots.
    pub fn new(slots: &'a mut [T]) -> WaitingLine<'a, T>
        ensures empty { waiting result ≡ [] }
        ensures same { result.slots.now ≡ slots.old }
    {
        WaitingLine {
            slots,
            first: 0,
            count: 0,
        }
    }

    // How many wait.
    pub fn len(&self) -> usize
        ensures value { result ≡ length (waiting self.now) }
        ensures within { result ≤ room_of self.now.slots.now }
    {
        self.count
    }

    // How many can wait.
    pub fn capacity(&self) -> usize
        ensures { result ≡ room_of self.now.slots.now }
    {
        self.slots.len().min(MOST)
    }

    // The record that waits at a place, the oldest at 0.
    pub fn at(&self, place: usize) -> Option<T>
        ensures { result ≡ slice_get (waiting self.now) place }
    {
        if place >= self.count {
            return None;
        }
        let slot = self.slot(place);
        let slots = &*self.slots;
        Some(slots[slot])
    }

    // A record joins the line; the caller says what a full line answers.
    pub fn put(&mut self, record: T, full: Refusal) -> Result<(), Refusal>
        ensures { Put self.old «record» full result self.new }
    {
        if self.len() == self.capacity() {
            return Err(full);
        }
        self.push(record);
        Ok(())
    }

    // The oldest leaves the line.
    pub fn take(&mut self) -> Option<T>
        ensures { Taken self.old result self.new }
    {
        let oldest = self.at(0);
        self.advance();
        oldest
    }
}
