// Where blanks, comments and digits end in a text, and the steps through a string: document 01, "Symbols".
#![tactic(auto)]

ghost use Rattle.std.specs.Prelude.{◌≡◌, ◌+◌, ◌<◌, length, drop, get_or};
ghost use Rattle.rules.specs.Bytes.{is_digit, is_hexadecimal};
ghost use Rattle.rules.specs.Symbols.{escape};
ghost use Rattle.ground.specs.Parts.{run_end};
ghost use Rattle.scans.specs.Scans.{is_blank, not_line_end, two_at, close_of, comment_at, fraction_end};
ghost use Rattle.scans.specs.Scans.{step_at};

use places::Line;

// The place behind a comment, and the line that it stands on.
#[derive(Clone, Copy)]
pub struct Passed {
    pub end: usize,
    pub line: Line,
}

// Why no comment is passed: it is never closed, or none begins there.
#[derive(Clone, Copy)]
pub enum NoComment {
    Open,
    Absent,
}

pub fn digit_at(text: &[u8], at: usize) -> bool
    ensures { result ≡ is_digit (get_or text.now at 0) }
{
    ground::is_digit(ground::byte_at(text, at))
}

fn is_hexadecimal(b: u8) -> bool
    ensures { result ≡ is_hexadecimal b }
{
    b.is_ascii_hexdigit()
}

// ---- blanks and comments
fn is_blank(b: u8) -> bool
    ensures { result ≡ is_blank b }
{
    b == b' ' || b == b'\t'
}

fn is_beside_line_end(b: u8) -> bool
    ensures { result ≡ not_line_end b }
{
    b != b'\r' && b != b'\n'
}

pub fn blanks_end(text: &[u8], at: usize) -> usize
    ensures { result ≡ run_end is_blank text.now at }
{
    ground::runs::run_end(text, at, is_blank)
}

pub fn line_end(text: &[u8], at: usize) -> usize
    ensures { result ≡ run_end not_line_end text.now at }
{
    ground::runs::run_end(text, at, is_beside_line_end)
}

// The bytes a and b stand at a place.
pub fn two(text: &[u8], at: usize, a: u8, b: u8) -> bool
    requires { at < length text.now }
    ensures { result ≡ two_at text.now at a b }
{
    text[at] == a && ground::byte_at(text, at + 1) == b
}

// From behind `/*` on, a place on this line.
fn block_end(text: &[u8], at: usize, line: Line) -> Result<Passed, NoComment>
    ensures { result ≡ close_of text.now (drop at text.now) at line }
{
    let mut on = line;
    for i in at..text.len() {
        if two(text, i, b'*', b'/') {
            return Ok(Passed {
                end: i + 2,
                line: on,
            });
        }
        on = places::behind(text, i, on);
    }
    Err(NoComment::Open)
}

// A comment that begins at this place, which stands on this line.
#[tactic(auto, unfolding(crate::specs::Scans::comment_at))]
pub fn comment(text: &[u8], at: usize, line: Line) -> Result<Passed, NoComment>
    requires { at < length text.now }
    ensures { result ≡ comment_at text.now at line }
{
    if two(text, at, b'!', b'!') {
        return Ok(Passed {
            end: line_end(text, at + 1),
            line: line,
        });
    }
    if two(text, at, b'/', b'*') {
        return block_end(text, at + 2, line);
    }
    Err(NoComment::Absent)
}

// ---- numbers
pub fn digits_end(text: &[u8], at: usize) -> usize
    ensures { result ≡ run_end is_digit text.now at }
{
    ground::runs::run_end(text, at, ground::is_digit)
}

pub fn fraction_end(text: &[u8], at: usize) -> usize
    ensures { result ≡ fraction_end text.now at }
{
    if at < text.len() && text[at] == b'.' && digit_at(text, at + 1) {
        return digits_end(text, at + 1);
    }
    at
}

// ---- strings
// How many of the bytes behind a backslash belong to it.
fn escaped(behind: &[u8]) -> usize
    ensures { result ≡ escape behind.now }
{
    match behind {
        [b'"' | b'\\', ..] => 1,
        [b'u', a, b, c, d, ..]
            if is_hexadecimal(*a)
                && is_hexadecimal(*b)
                && is_hexadecimal(*c)
                && is_hexadecimal(*d) => 5,
        _ => 0,
    }
}

// How many bytes of a string begin at a place; none where the byte is not allowed.
#[tactic(auto, unfolding(crate::specs::Scans::step_at))]
pub fn step(text: &[u8], at: usize) -> Option<usize>
    requires { at < length text.now }
    ensures { result ≡ step_at text.now at }
{
    match text[at] {
        0..=31 => None,
        b'\\' => match escaped(&text[at + 1..]) {
            0 => None,
            n => Some(1 + n),
        },
        _ => Some(1),
    }
}
