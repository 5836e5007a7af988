// The line and the column of a place in a text: document 02, No. 6.
#![tactic(auto)]

ghost use Rattle.std.specs.Prelude.{◌≡◌, ◌<◌, ◌≤◌, length};
ghost use Rattle.rules.specs.Lines.{ends_at};
ghost use Rattle.places.specs.Standing.{first_line, behind_byte, on_line, position_in};

// The line that a place stands on: its number, and where it begins. Both are cut to four bytes; a text that is checked
// has at most 65,536 lines.
#[derive(Clone, Copy)]
pub struct Line {
    pub number: u32,
    pub begin: u32,
}

#[derive(Clone, Copy)]
pub struct Position {
    pub line: usize,
    pub column: usize,
}

// The line that every text begins with.
pub fn first() -> Line
    ensures { result ≡ first_line }
{
    Line {
        number: 1,
        begin: 0,
    }
}

// Whether the byte at a place ends a line: CR before LF does not.
fn ends_line(text: &[u8], at: usize) -> bool
    requires { at < length text.now }
    ensures { result ≡ ends_at text.now at }
{
    match text[at] {
        b'\n' => true,
        b'\r' => ground::byte_at(text, at + 1) != b'\n',
        _ => false,
    }
}

// The line behind the byte at a place that stands on this line.
#[tactic(auto, unfolding(crate::specs::Standing::behind_byte))]
pub fn behind(text: &[u8], at: usize, line: Line) -> Line
    requires { at < length text.now }
    ensures { result ≡ behind_byte text.now at line }
{
    if ends_line(text, at) {
        return Line {
            number: line.number.wrapping_add(1),
            begin: ((at + 1) % 4294967296) as u32,
        };
    }
    line
}

// The position of a place that stands on this line. The sums wrap, so that it is one for every place and line.
pub fn position_on(line: Line, place: usize) -> Position
    ensures { result ≡ on_line line place }
{
    Position {
        line: line.number as usize,
        column: place.wrapping_sub(line.begin as usize).wrapping_add(1),
    }
}

// The position of a place of which only the offset is at hand.
pub fn position_of(text: &[u8], place: usize) -> Position
    requires { length text.now ≤ 65535 }
    ensures { result ≡ position_in text.now place }
{
    let end = place.min(text.len());
    let mut line = first();
    for at in 0..end {
        line = behind(text, at, line);
    }
    position_on(line, end)
}
