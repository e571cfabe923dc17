// What is noted in a journal.
ghost use Rattle.std.specs.Prelude.{◌≡◌, ◌+◌, ◌≤◌, true, [], ◌∷◌, ◌++◌, length, IfOk, vec_len, vec_capacity};
ghost use Rattle.days.specs.Journals.{entry_with, told_by, has_room, notes_in, triggered_in, all_fills, all_receipts, EmptyFor};
ghost use Rattle.days.specs.Steps.{Enough};

use crate::journal::Journal;
use crate::note::Note;
use locked_stock::receipt::Receipt;
use orders::capacity::MOST;
use orders::terms::Terms;
use settling::fill::Fill;
use std::alloc::{AllocError, Global};

// Puts records behind those of a list that has room for them.
fn extend<T: Copy>(list: &mut Vec<T>, more: &[T])
    requires { vec_len list.old + length more.now ≤ vec_capacity list.old }
    ensures { list.new.items ≡ list.old.items ++ more.now }
{
    let _ = list.extend_from_slice(more);
}

impl Journal {
    // An empty journal for so many calls, of which so many end a freeze.
    pub fn new(heap: Global, calls: usize, endings: usize) -> Result<Journal, AllocError>
        ensures { IfOk result (EmptyFor calls endings) }
    {
        let most = endings.saturating_add(1).saturating_mul(MOST);
        Ok(Journal {
            notes: Vec::with_capacity(heap, calls)?,
            triggered: Vec::with_capacity(heap, most)?,
            fills: Vec::with_capacity(heap, most)?,
            receipts: Vec::with_capacity(heap, most)?,
        })
    }

    // Is there room for one more call?
    pub fn has_room(&self) -> bool
        ensures { result ≡ has_room self.now }
    {
        self.notes.len() < self.notes.capacity()
            && self.triggered.len().saturating_add(MOST) <= self.triggered.capacity()
            && self.fills.len().saturating_add(MOST) <= self.fills.capacity()
            && self.receipts.len().saturating_add(MOST) <= self.receipts.capacity()
    }

    // The calls with their answers.
    pub fn notes(&self) -> &[Note]
        ensures { result.now ≡ notes_in self.now }
    {
        self.notes.as_slice()
    }

    // The stops that all matches triggered.
    pub fn triggered(&self) -> &[Terms]
        ensures { result.now ≡ triggered_in self.now }
    {
        self.triggered.as_slice()
    }

    // The fills of all matches.
    pub fn fills(&self) -> &[Fill]
        ensures { result.now ≡ all_fills self.now }
    {
        self.fills.as_slice()
    }

    // The receipts of all matches and lifts.
    pub fn receipts(&self) -> &[Receipt]
        ensures { result.now ≡ all_receipts self.now }
    {
        self.receipts.as_slice()
    }

    // Notes a call with its answer, and as much of the three lists as the answer says.
    pub(crate) fn note(
        &mut self,
        note: Note,
        triggered: &[Terms],
        fills: &[Fill],
        receipts: &[Receipt],
    )
        requires room { has_room self.old ≡ true }
        requires enough { Enough note.answer triggered.now fills.now receipts.now }
        ensures { told_by self.new ≡ told_by self.old ++ entry_with note triggered.now fills.now receipts.now ∷ [] }
    {
        let counts = note.answer.counts();
        self.notes.push_reserved(note);
        extend(&mut self.triggered, &triggered[0..counts.stops]);
        extend(&mut self.fills, &fills[0..counts.fills]);
        extend(&mut self.receipts, &receipts[0..counts.receipts]);
    }
}
