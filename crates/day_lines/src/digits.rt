// A run of digits, which borrows the bytes of a line.
ghost use Rattle.std.specs.Prelude.{◌≡◌, ◌≤◌, true, if◌then◌else◌, Some, None, nat_le, length, take};
ghost use Rattle.std.specs.Char.{is_ascii_digit};
ghost use Rattle.std.specs.List.{list_all, prefix_len};
ghost use Rattle.std.specs.Str.Parse.{digits_value};

// The largest number that is read, 4294967295, has ten digits.
const MOST_DIGITS: usize = 10;

#[derive(Clone, Copy)]
pub(crate) struct Digits<'a> {
    bytes: &'a [u8],
    ghost decimal: { list_all is_ascii_digit bytes.now ≡ true },
}

// How many digits stand in front.
fn digits_in_front(text: &[u8]) -> usize
    ensures within { result ≤ length text.now }
    ensures count { result ≡ prefix_len is_ascii_digit text.now }
{
    text.iter().take_while(|b| b.is_ascii_digit()).count()
}

impl<'a> Digits<'a> {
    // All the digits in front of `text`; there may be none.
    pub(crate) fn in_front(text: &'a [u8]) -> Digits<'a>
        ensures { result.bytes.now ≡ take (prefix_len is_ascii_digit text.now) text.now }
    {
        let n = digits_in_front(text);
        Digits { bytes: &text[0..n] }
    }

    // How many they are.
    pub(crate) fn len(self) -> usize
        ensures { result ≡ length self.entry.bytes.now }
    {
        self.bytes.len()
    }

    // The number that they write, if they are at most ten.
    pub(crate) fn value(self) -> Option<u64>
        ensures { result ≡ (if nat_le (length self.entry.bytes.now) 10 then Some (digits_value 10 self.entry.bytes.now) else None) }
    {
        if self.bytes.len() > MOST_DIGITS {
            return None;
        }
        let mut sum: u64 = 0;
        for digit in self.bytes {
            sum = sum * 10 + u64::from(*digit - b'0');
        }
        Some(sum)
    }
}
