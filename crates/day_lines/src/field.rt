// The fields of a line: they borrow its bytes, and keep the place where they stand.
ghost use Rattle.std.specs.Prelude.{◌≡◌};
ghost use Rattle.day_lines.specs.Fields.{first_token, token_length, number_at, letter_at};
ghost use Rattle.day_lines.specs.Steps.{token_of, stands_at};

use crate::digits::Digits;
use crate::fault::{Cause, FieldFault};

// A run of digits, any other byte, or the end of the line. `at` counts from 1.
#[derive(Clone, Copy)]
pub(crate) enum Field<'a> {
    Number { digits: Digits<'a>, at: usize },
    Letter { letter: char, at: usize },
    End { at: usize },
}

impl<'a> Field<'a> {
    // The field in front of `text`, which begins at the place `at`.
    pub(crate) fn first(text: &'a [u8], at: usize) -> Field<'a>
        ensures token { token_of result ≡ first_token text.now }
        ensures place { stands_at result ≡ at }
    {
        let digits = Digits::in_front(text);
        if digits.len() > 0 {
            return Field::Number { digits, at };
        }
        match text {
            [] => Field::End { at },
            [letter, ..] => Field::Letter {
                letter: *letter as char,
                at,
            },
        }
    }

    // How many bytes the field has.
    pub(crate) fn len(self) -> usize
        ensures { result ≡ token_length (token_of self.entry) }
    {
        match self {
            Field::Number { digits, .. } => digits.len(),
            Field::Letter { .. } => 1,
            Field::End { .. } => 0,
        }
    }

    pub(crate) fn number(self, max: u32) -> Result<u32, FieldFault>
        ensures { result ≡ number_at max (stands_at self.entry) (token_of self.entry) }
    {
        match self {
            Field::Number { digits, at } => match digits.value() {
                Some(n) if n <= u64::from(max) => Ok(n as u32),
                _ => Err(Cause::TooLarge.at(at)),
            },
            Field::Letter { at, .. } => Err(Cause::Unexpected.at(at)),
            Field::End { at } => Err(Cause::Missing.at(at)),
        }
    }

    pub(crate) fn letter(self) -> Result<char, FieldFault>
        ensures { result ≡ letter_at (stands_at self.entry) (token_of self.entry) }
    {
        match self {
            Field::Number { at, .. } => Err(Cause::Unexpected.at(at)),
            Field::Letter { letter, .. } => Ok(letter),
            Field::End { at } => Err(Cause::Missing.at(at)),
        }
    }
}
