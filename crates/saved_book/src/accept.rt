// Saved bytes accepted as a book.
ghost use Rattle.std.specs.Prelude.{◌≡◌, ◌<◌, ◌≤◌};
ghost use Rattle.orders.specs.Results.{seen};
ghost use Rattle.orders.specs.Told.{grid_of};
ghost use Rattle.saved_book.specs.Calls.{Accept};
ghost use Rattle.saved_book.specs.Decoding.{record_at, orders_upto};
ghost use Rattle.saved_book.specs.Meaning.{orders_read};
ghost use Rattle.saved_book.specs.Steps.{numbered_before, alone};

use crate::fault::{RecordFault, SavedFault};
use crate::layout::Layout;
use crate::saved::SavedBook;
use orders::refusal::Refusal;
use orders::settings::Settings;

// Has a record before `place` this number?
fn is_numbered_before(layout: &Layout<'_>, number: u32, place: usize) -> bool
    requires { place ≤ layout.now.count }
    ensures { result ≡ numbered_before layout.now.bytes.now number place }
{
    (0..place).any(|earlier| layout.number(earlier) == number)
}

// Is record `place` good behind those before it?
fn check_record(settings: Settings, layout: &Layout<'_>, place: usize) -> Result<(), RecordFault>
    requires { place < layout.now.count }
    ensures { result ≡ alone layout.now.bytes.now place (record_at (grid_of settings) layout.now.bytes.now layout.now.count place) }
{
    let order = layout.order(settings, place)?;
    if is_numbered_before(layout, order.terms().number, place) {
        return Err(RecordFault::Refused(Refusal::NumberHeld));
    }
    Ok(())
}

// Are all records good?
fn check_records(settings: Settings, layout: &Layout<'_>) -> Result<(), SavedFault>
    ensures { result ≡ seen (λ _. tt) (orders_upto (grid_of settings) layout.now.bytes.now layout.now.count layout.now.count) }
{
    // a range, since the place of a bad record is told
    for place in 0..layout.count {
        if let Err(fault) = check_record(settings, layout, place) {
            return Err(SavedFault::Record { place, fault });
        }
    }
    Ok(())
}

// The book over these bytes, or their first fault.
pub fn accept(settings: Settings, bytes: &[u8]) -> Result<SavedBook<'_>, SavedFault>
    ensures { Accept (grid_of settings) bytes.now (seen orders_read result) }
{
    let layout = Layout::of(bytes).ok_or(SavedFault::Layout)?;
    check_records(settings, &layout)?;
    Ok(SavedBook { settings, layout })
}
