// What a cursor passes: the fields of a line, one after another.
ghost use Rattle.std.specs.Prelude.{◌≡◌, ◌+◌, ◌≤◌, length, IfOk};
ghost use Rattle.day_lines.specs.Fields.{token_after, token_length, next_number, next_letter, next_named, space_named, spaced, number_field, short_field, side_field, type_field};
ghost use Rattle.day_lines.specs.Grammar.{line_ended};
ghost use Rattle.day_lines.specs.Passing.{Passes};
ghost use Rattle.day_lines.specs.Steps.{token_of, stands_at};

use crate::cursor::Cursor;
use crate::fault::{Cause, FieldFault, LineFault};
use crate::field::Field;
use orders::terms::{OrderType, Side};

impl<'a> Cursor<'a> {
    // The field at the cursor.
    fn field(&self) -> Field<'a>
        ensures token { token_of result ≡ token_after self.now.line.now self.now.at }
        ensures place { stands_at result ≡ self.now.at + 1 }
        ensures within { self.now.at + token_length (token_of result) ≤ length self.now.line.now }
    {
        Field::first(&self.line[self.at..], self.at + 1)
    }

    // The letter at the cursor.
    pub(crate) fn letter(&mut self) -> Result<char, FieldFault>
        ensures { Passes next_letter self.old result self.new }
    {
        let letter = self.field().letter()?;
        self.at += 1;
        Ok(letter)
    }

    fn space(&mut self) -> Result<(), FieldFault>
        ensures { Passes (next_named space_named) self.old result self.new }
    {
        match self.letter()? {
            ' ' => Ok(()),
            _ => Err(Cause::Unexpected.at(self.at)),
        }
    }

    // The number of at most `max` after a space.
    fn number_up_to(&mut self, max: u32) -> Result<u32, FieldFault>
        ensures passes { Passes (spaced (next_number max)) self.old result self.new }
        ensures bounded { IfOk result (λ n. n ≤ max) }
    {
        self.space()?;
        let field = self.field();
        let n = field.number(max)?;
        self.at += field.len();
        Ok(n)
    }

    // The number after a space.
    pub(crate) fn number(&mut self) -> Result<u32, FieldFault>
        ensures { Passes number_field self.old result self.new }
    {
        self.number_up_to(u32::MAX)
    }

    // The lot or the participant after a space.
    pub(crate) fn short_number(&mut self) -> Result<u16, FieldFault>
        ensures { Passes short_field self.old result self.new }
    {
        let n = self.number_up_to(u32::from(u16::MAX))?;
        Ok(n as u16)
    }

    // The side after a space.
    pub(crate) fn side(&mut self) -> Result<Side, FieldFault>
        ensures { Passes side_field self.old result self.new }
    {
        self.space()?;
        match self.letter()? {
            'B' => Ok(Side::Buy),
            'S' => Ok(Side::Sell),
            _ => Err(Cause::Unexpected.at(self.at)),
        }
    }

    // The type of an order after a space.
    pub(crate) fn order_type(&mut self) -> Result<OrderType, FieldFault>
        ensures { Passes type_field self.old result self.new }
    {
        self.space()?;
        match self.letter()? {
            'M' => Ok(OrderType::Market),
            'L' => Ok(OrderType::Limit),
            'P' => Ok(OrderType::StopMarket),
            'Q' => Ok(OrderType::StopLimit),
            _ => Err(Cause::Unexpected.at(self.at)),
        }
    }

    // Does the line end here?
    pub(crate) fn end(&self) -> Result<(), LineFault>
        ensures { result ≡ line_ended self.now.line.now self.now.at }
    {
        if self.at < self.line.len() {
            return Err(LineFault::Longer { place: self.at + 1 });
        }
        Ok(())
    }
}
