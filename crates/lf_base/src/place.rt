//! Where something stands in a text.
ghost use Rattle.std.specs.Prelude.{◌≡◌, ◌≤◌, ◌^◌, length, count_by};
ghost use Rattle.std.specs.List.{after_last};
ghost use Rattle.lf_base.specs.Places.{is_line_feed, line_at, column_at};

/// A part of a text, from the byte offset `start` up to the byte offset `end`, both counted from 0. Empty where the two are equal.
#[derive(Clone, Copy, PartialEq, Eq, Debug)]
pub struct Span {
    pub start: u32,
    pub end: u32,
}

/// A place as people count it: lines from 1, and columns from 1 in bytes of the line.
#[derive(Clone, Copy, PartialEq, Eq, Debug)]
pub struct Place {
    pub line: u32,
    pub column: u32,
}

/// The line and the column of a byte offset, counted from 0 and at most the length of the text. A line feed stands at the end of its line, and the byte behind it
/// begins the next.
pub fn place_of(bytes: &[u8], offset: u32) -> Place
    requires within { offset ≤ length bytes.now }
    requires short { length bytes.now ≤ 2 ^ 31 }
    ensures line { result.line ≡ line_at bytes.now offset }
    ensures column { result.column ≡ column_at bytes.now offset }
{
    let before = &bytes[..offset as usize];
    Place {
        line: 1 + line_feeds(before),
        column: 1 + bytes_of_line(before),
    }
}

/// How many line feeds there are.
fn line_feeds(bytes: &[u8]) -> u32
    requires { length bytes.now ≤ 2 ^ 31 }
    ensures { result ≡ count_by is_line_feed bytes.now }
{
    bytes.iter().filter(|byte| **byte == b'\n').count() as u32
}

/// How many bytes stand behind the last line feed.
fn bytes_of_line(bytes: &[u8]) -> u32
    requires { length bytes.now ≤ 2 ^ 31 }
    ensures { result ≡ length (after_last is_line_feed bytes.now) }
{
    let mut start = bytes.len();
    while start > 0 && bytes[start - 1] != b'\n' {
        start -= 1;
    }
    (bytes.len() - start) as u32
}
