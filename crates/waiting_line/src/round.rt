// How the slots are used round and round.
ghost use Rattle.std.specs.Prelude.{◌≡◌, ◌<◌, ◌≤◌, length};
ghost use Rattle.waiting_line.specs.Lines.{room_of, waiting, slot_at};
ghost use Rattle.waiting_line.specs.Steps.{Pushed, Advanced};

use crate::line::WaitingLine;
use orders::capacity::MOST;

impl<'a, T: Copy> WaitingLine<'a, T> {
    // The slot that is `behind` the first.
    pub(crate) fn slot(&self, behind: usize) -> usize
        requires some { 0 < room_of self.now.slots.now }
        requires near { behind ≤ room_of self.now.slots.now }
        ensures value { result ≡ slot_at self.now behind }
        ensures within { result < length self.now.slots.now }
    {
        let room = self.slots.len().min(MOST);
        let slot = self.first + behind;
        if slot < room { slot } else { slot - room }
    }

    pub(crate) fn push(&mut self, record: T)
        requires { length (waiting self.old) < room_of self.old.slots.now }
        ensures { Pushed self.old «record» self.new }
    {
        let count = self.count;
        let slot = self.slot(count);
        self.slots[slot] = record;
        self.count = count + 1;
    }

    // The oldest is passed, if one waits.
    pub(crate) fn advance(&mut self)
        ensures { Advanced self.old self.new }
    {
        if self.count == 0 {
            return;
        }
        self.first = self.slot(1);
        self.count -= 1;
    }
}
