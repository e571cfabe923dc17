// One record of a saved book.
ghost use Rattle.std.specs.Prelude.{◌≡◌};
ghost use Rattle.std.specs.Option.{ok_or};
ghost use Rattle.saved_book.specs.Decoding.{ticket_at};
ghost use Rattle.saved_book.specs.Encoding.{record_bytes};
ghost use Rattle.saved_book.specs.declared.fault.RecordFault.TheVariants.{Code};

use crate::fault::RecordFault;
use orders::terms::{OrderType, Side, Terms};
use orders::ticket::Ticket;

// The record of an order.
pub(crate) fn record_bytes(terms: Terms) -> [u8; 16]
    ensures { result ≡ record_bytes terms }
{
    let side = terms.side as u8;
    let kind = terms.kind.order_type() as u8;
    let [p, q] = terms.participant.to_le_bytes();
    let [a, b, c, d] = terms.quantity.to_le_bytes();
    let [e, f, g, h] = terms.kind.limit().unwrap_or(0).to_le_bytes();
    let [i, j, k, l] = terms.kind.stop().unwrap_or(0).to_le_bytes();
    [p, q, side, kind, a, b, c, d, e, f, g, h, i, j, k, l]
}

// The ticket of an order number and a record.
pub(crate) fn ticket_of(number: u32, part: [u8; 16]) -> Result<Ticket, RecordFault>
    ensures { result ≡ ok_or (ticket_at part number 0) Code }
{
    let [p, q, side, kind, a, b, c, d, e, f, g, h, i, j, k, l] = part;
    Ok(Ticket {
        number,
        participant: u16::from_le_bytes([p, q]),
        side: Side::try_from(side)?,
        order_type: OrderType::try_from(kind)?,
        quantity: u32::from_le_bytes([a, b, c, d]),
        limit: u32::from_le_bytes([e, f, g, h]),
        stop: u32::from_le_bytes([i, j, k, l]),
    })
}
