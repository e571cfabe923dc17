// The lines, each by its letter and its fields.
ghost use Rattle.std.specs.Prelude.{◌≡◌};
ghost use Rattle.day_lines.specs.Grammar.{settings_line, ticket_line, delete_line, line_named, line_text};

use crate::cursor::Cursor;
use crate::fault::LineFault;
use crate::line::Line;
use orders::instruction::Instruction;
use orders::ticket::Ticket;

// The fields of a line S.
fn settings(mut cursor: Cursor<'_>) -> Result<Line, LineFault>
    ensures { result ≡ settings_line cursor.entry.line.now cursor.entry.at }
{
    let lot = cursor.short_number()?;
    let tick_class = cursor.number()?;
    cursor.end()?;
    Ok(Line::Settings { lot, tick_class })
}

// The fields of a line E or C.
fn ticket(mut cursor: Cursor<'_>) -> Result<Ticket, LineFault>
    ensures { result ≡ ticket_line cursor.entry.line.now cursor.entry.at }
{
    let number = cursor.number()?;
    let participant = cursor.short_number()?;
    let side = cursor.side()?;
    let order_type = cursor.order_type()?;
    let quantity = cursor.number()?;
    let limit = cursor.number()?;
    let stop = cursor.number()?;
    cursor.end()?;
    Ok(Ticket {
        number,
        participant,
        side,
        order_type,
        quantity,
        limit,
        stop,
    })
}

// The fields of a line D.
fn delete(mut cursor: Cursor<'_>) -> Result<Instruction<Ticket>, LineFault>
    ensures { result ≡ delete_line cursor.entry.line.now cursor.entry.at }
{
    let number = cursor.number()?;
    let participant = cursor.short_number()?;
    cursor.end()?;
    Ok(Instruction::Delete {
        number,
        participant,
    })
}

// What a line says after its letter.
fn named(letter: char, cursor: Cursor<'_>) -> Result<Line, LineFault>
    ensures { result ≡ line_named letter cursor.entry.line.now cursor.entry.at }
{
    match letter {
        'S' => settings(cursor),
        'E' => Ok(Line::Instruction(Instruction::Enter(ticket(cursor)?))),
        'C' => Ok(Line::Instruction(Instruction::Change(ticket(cursor)?))),
        'D' => Ok(Line::Instruction(delete(cursor)?)),
        _ => Err(LineFault::Letter { place: 1 }),
    }
}

// What a line says, wherever it stands.
pub(crate) fn read_text(line: &[u8]) -> Result<Line, LineFault>
    ensures { result ≡ line_text line.now }
{
    let mut cursor = Cursor::new(line);
    let letter = cursor.letter()?;
    named(letter, cursor)
}
