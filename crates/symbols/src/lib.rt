// Cuts a text into symbols: document 01, "Symbols".
#![tactic(auto)]

ghost use Rattle.std.specs.Prelude.{◌≡◌, false, ◌+◌, ◌-◌, ◌≤◌, ◌<◌, length, get_or};
ghost use Rattle.rules.specs.Bytes.{part, is_digit};
ghost use Rattle.rules.specs.Symbols.{digit_count};
ghost use Rattle.symbols.specs.Cut.{made, faulty_as, length_at, position_at, start, next_of};
ghost use Rattle.symbols.specs.Begins.{class_of, word_cut, number_cut, unsigned_cut, signed_cut, string_cut, mark_cut};

use places::{Line, Position};
use scans::NoComment;

// A place in the text, from which on the next symbol is cut, and the line that it stands on.
#[derive(Clone, Copy)]
pub struct Cursor {
    at: usize,
    line: Line,
}

// code: 0 the end of the text, 1 a name, 2 a number, 3 a string, 4 `..`, 5 a fault, 40 to 61, 91 and 93 a mark's byte,
// 64 to 82 a word of the forms; 90 is the last code that a word may have.
// refusal: the number that refuses the symbol where it is not possible: its own fault's, or 5.
// Both have four bytes, so that none is left empty before the places: empty ones are copied too, and slowly.
// The cursor behind it says where it ends. Its line is the symbol's own: no symbol holds a line end.
#[derive(Clone, Copy)]
pub struct Symbol {
    pub code: u32,
    pub refusal: u32,
    pub place: usize,
    pub next: Cursor,
}

// What begins with a byte.
#[derive(Clone, Copy)]
enum Class {
    Letter,
    Digit,
    Sign,
    Quote,
    Comment,
    Punctuation,
    Blank,
    LineEnd,
    Other,
}

fn make(code: u32, refusal: u32, place: usize, len: usize, line: Line) -> Symbol
    requires { place + len < 18446744073709551616 }
    ensures { result ≡ made code refusal place len line }
{
    Symbol {
        code,
        refusal,
        place,
        next: Cursor {
            at: place + len,
            line,
        },
    }
}

// The end of the text.
fn stop(place: usize, line: Line) -> Symbol
    ensures { result ≡ made 0 5 place 0 line }
{
    make(0, 5, place, 0, line)
}

// A symbol with a fault of the number: it stays what it is wherever it is read.
fn fault(number: u32, place: usize, line: Line) -> Symbol
    ensures { result ≡ made 5 number place 0 line }
{
    make(5, number, place, 0, line)
}

// Such a symbol in the place of another.
pub fn faulty(number: u32, y: Symbol) -> Symbol
    ensures { result ≡ faulty_as number y }
{
    fault(number, y.place, y.next.line)
}

// How many bytes a symbol has.
pub fn length_of(y: Symbol) -> usize
    ensures { result ≡ length_at y }
{
    y.next.at.saturating_sub(y.place)
}

// The line and the column of a symbol.
pub fn position_of(y: Symbol) -> Position
    ensures { result ≡ position_at y }
{
    places::position_on(y.next.line, y.place)
}

// ---- bytes
#[tactic(auto, unfolding(crate::specs::Begins::class_of))]
fn class_of(b: u8) -> Class
    ensures { result ≡ class_of b }
{
    match b {
        b'A'..=b'Z' | b'a'..=b'z' => Class::Letter,
        b'0'..=b'9' => Class::Digit,
        b'+' | b'-' => Class::Sign,
        b'"' => Class::Quote,
        b'!' | b'/' => Class::Comment,
        b'('..=b'*' | b',' | b'.' | b':'..=b';' | b'=' | b'[' | b']' => Class::Punctuation,
        b'\t' | b' ' => Class::Blank,
        b'\n' | b'\r' => Class::LineEnd,
        _ => Class::Other,
    }
}

// ---- words
fn word(text: &[u8], at: usize, line: Line) -> Symbol
    requires { at < length text.now }
    ensures { result ≡ word_cut text.now at line }
{
    let len = words::word_end(text, at + 1) - at;
    if 255 < len {
        return make(5, 4, at, len, line);
    }
    let code = words::word_code(text, at, len);
    if code == b'.' {
        return make(5, 6, at, len, line);
    }
    make(u32::from(code), 5, at, len, line)
}

// ---- numbers
// "Sizes": how many digits a number has at most.
const MOST_DIGITS: usize = 18;

fn sized(place: usize, len: usize, digits: usize, line: Line) -> Symbol
    requires { place + len < 18446744073709551616 }
    ensures { result ≡ number_cut place len digits line }
{
    if MOST_DIGITS < digits {
        return make(5, 4, place, len, line);
    }
    make(2, 5, place, len, line)
}

// The sign has no byte or one.
fn number(text: &[u8], at: usize, sign: usize, line: Line) -> Symbol
    requires { (at + sign ≤ length text.now) × (digit_count (part text.now at sign) ≡ 0) }
    ensures { result ≡ unsigned_cut text.now at sign line }
{
    let from = at + sign;
    let e = scans::digits_end(text, from);
    let f = scans::fraction_end(text, e);
    if e < f {
        return sized(at, f - at, f - from - 1, line);
    }
    sized(at, e - at, e - from, line)
}

fn signed(text: &[u8], at: usize, line: Line) -> Symbol
    requires { (at < length text.now) × (is_digit (get_or text.now at 0) ≡ false) }
    ensures { result ≡ signed_cut text.now at line }
{
    if scans::digit_at(text, at + 1) {
        return number(text, at, 1, line);
    }
    fault(2, at, line)
}

// ---- strings
fn string(text: &[u8], at: usize, line: Line) -> Symbol
    requires { at < length text.now }
    ensures { result ≡ string_cut text.now at line }
{
    let mut i = at + 1;
    // No `for`: a step is one, two or six bytes.
    while i < text.len() {
        if text[i] == b'"' {
            return make(3, 5, at, i + 1 - at, line);
        }
        match scans::step(text, i) {
            Some(n) => i += n,
            None => return fault(2, i, line),
        }
    }
    fault(3, at, line)
}

// ---- symbols
fn punctuation(text: &[u8], at: usize, line: Line) -> Symbol
    requires { at < length text.now }
    ensures { result ≡ mark_cut text.now at line }
{
    if scans::two(text, at, b'.', b'.') {
        return make(4, 5, at, 2, line);
    }
    make(u32::from(text[at]), 5, at, 1, line)
}

impl Cursor {
    // The front of a text.
    pub fn start() -> Cursor
        ensures { result ≡ start }
    {
        Cursor {
            at: 0,
            line: places::first(),
        }
    }

    // The next symbol, behind separators and comments.
    pub fn next(self, text: &[u8]) -> Symbol
        ensures { result ≡ next_of text.now self }
    {
        let mut at = self.at;
        let mut line = self.line;
        // No `for`: what stands between symbols is passed at once.
        while at < text.len() {
            match class_of(text[at]) {
                Class::Letter => return word(text, at, line),
                Class::Digit => return number(text, at, 0, line),
                Class::Sign => return signed(text, at, line),
                Class::Quote => return string(text, at, line),
                Class::Comment => match scans::comment(text, at, line) {
                    Ok(passed) => {
                        at = passed.end;
                        line = passed.line;
                    }
                    Err(NoComment::Open) => return fault(3, at, line),
                    Err(NoComment::Absent) => return fault(2, at, line),
                },
                Class::Punctuation => return punctuation(text, at, line),
                Class::Blank => at = scans::blanks_end(text, at + 1),
                Class::LineEnd => {
                    line = places::behind(text, at, line);
                    at += 1;
                }
                Class::Other => return fault(2, at, line),
            }
        }
        stop(at, line)
    }
}
