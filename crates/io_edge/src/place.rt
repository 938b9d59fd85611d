ghost use Rattle.std.specs.Prelude.{◌≡◌, ◌≤◌, length, take, chars, IsUtf8};
ghost use Rattle.io_edge.specs.Places.{line_behind, column_behind};

use std::str;

/// A line and a column of a text, both from 1. A line ends behind its line feed, and a column counts
/// characters.
#[derive(Clone, Copy, Debug, PartialEq, Eq)]
pub struct Place {
    pub line: u32,
    pub column: u32,
}

/// The place of the byte at an offset. Takes no memory.
pub fn place_of(text: &[u8], offset: usize) -> Place
    requires within { offset ≤ length text.now }
    requires is_text { IsUtf8 (take offset text.now) }
    requires short { length text.now ≤ 4194304 }
    ensures line { result.line ≡ line_behind (chars (take offset text.now)) }
    ensures column { result.column ≡ column_behind (chars (take offset text.now)) }
{
    place_behind(str::from_utf8(&text[..offset]).unwrap())
}

fn place_behind(front: &str) -> Place
    requires { length front.now ≤ 4194304 }
    ensures line { result.line ≡ line_behind (chars front.now) }
    ensures column { result.column ≡ column_behind (chars front.now) }
{
    let mut place = Place { line: 1, column: 1 };
    for character in front.chars() {
        if character == '\n' {
            place.line += 1;
            place.column = 1;
        } else {
            place.column += 1;
        }
    }
    place
}
