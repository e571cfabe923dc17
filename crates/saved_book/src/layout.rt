// The layout of saved bytes: how many orders there are, and where each stands.
ghost use Rattle.std.specs.Prelude.{◌≡◌, ◌+◌, ◌*◌, ◌<◌, ◌≤◌, length};
ghost use Rattle.std.specs.Option.{option_map, ok_or, IfSome};
ghost use Rattle.orders.specs.Results.{seen};
ghost use Rattle.orders.specs.Told.{terms_of, grid_of};
ghost use Rattle.saved_book.specs.Decoding.{four_at, ticket_at, record_at};
ghost use Rattle.saved_book.specs.Steps.{head_count};
ghost use Rattle.saved_book.specs.declared.fault.RecordFault.TheVariants.{Code};

use crate::bytes::{array_at, four_at};
use crate::fault::RecordFault;
use crate::records::ticket_of;
use orders::capacity::MOST;
use orders::order::Order;
use orders::settings::Settings;
use orders::ticket::Ticket;

// Bytes with a head that fits them.
// Each call asks for a place below the count, as an index into a slice does.
#[derive(Drop)]
pub(crate) struct Layout<'a> {
    bytes: &'a [u8],
    pub(crate) count: usize,
    ghost long: { 8 + 20 * count ≤ length bytes.now },
}

impl<'a> Layout<'a> {
    // The layout of these bytes, if they have one.
    pub(crate) fn of(bytes: &'a [u8]) -> Option<Layout<'a>>
        ensures count { option_map (λ l. l.count) result ≡ head_count bytes.now }
        ensures same { IfSome result (λ l. l.bytes.now ≡ bytes.now) }
    {
        if bytes.len() < 8 {
            return None;
        }
        let count = four_at(bytes, 0) as usize;
        if count > MOST || four_at(bytes, 4) != 16 || bytes.len() != 8 + 20 * count {
            return None;
        }
        Some(Layout { bytes, count })
    }

    // The order number of record `place`.
    pub(crate) fn number(&self, place: usize) -> u32
        requires { place < self.now.count }
        ensures { result ≡ four_at self.now.bytes.now (8 + 4 * place) }
    {
        four_at(self.bytes, 8 + 4 * place)
    }

    // The ticket of record `place`.
    fn ticket(&self, place: usize) -> Result<Ticket, RecordFault>
        requires { place < self.now.count }
        ensures { result ≡ ok_or (ticket_at self.now.bytes.now (four_at self.now.bytes.now (8 + 4 * place)) (8 + 4 * self.now.count + 16 * place)) Code }
    {
        ticket_of(
            self.number(place),
            array_at(self.bytes, 8 + 4 * self.count + 16 * place),
        )
    }

    // The order of record `place`.
    pub(crate) fn order(&self, settings: Settings, place: usize) -> Result<Order, RecordFault>
        requires { place < self.now.count }
        ensures { seen terms_of result ≡ record_at (grid_of settings) self.now.bytes.now self.now.count place }
    {
        Ok(settings.order(self.ticket(place)?)?)
    }
}
