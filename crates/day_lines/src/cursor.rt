// A cursor on a line.
ghost use Rattle.std.specs.Prelude.{◌≡◌, ◌≤◌, length};

// `at` bytes of the line are passed.
#[derive(Drop)]
pub(crate) struct Cursor<'a> {
    pub(crate) line: &'a [u8],
    pub(crate) at: usize,
    ghost inside: { at ≤ length line.now },
}

impl<'a> Cursor<'a> {
    pub(crate) fn new(line: &'a [u8]) -> Cursor<'a>
        ensures bytes { result.line.now ≡ line.now }
        ensures start { result.at ≡ 0 }
    {
        Cursor { line, at: 0 }
    }
}
