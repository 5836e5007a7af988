// The type whose record is at a place of the book.
ghost use Rattle.std.specs.Prelude.{◌≡◌, ◌+◌, ◌≤◌, length};
ghost use Rattle.fitting.specs.Places.{signed_at, text_at, unit_at, range_at, typing_at};

use crate::Typing;
use book::{LENGTH_SIZE, NUMERIC_SIZE, RANGE_SIZE, kinds};
use ground::get4;

// Two's complement, its low half first.
fn signed_at(book: &[u8], at: usize) -> i64
    requires { at + 8 ≤ length book.now }
    ensures { result ≡ signed_at book.now at }
{
    let low = u64::from(get4(book, at));
    let high = u64::from(get4(book, at + 4));
    (low + high * 4294967296).cast_signed()
}

#[tactic(auto, unfolding(crate::specs::Places::text_at))]
fn text_at(kind: u8, book: &[u8], at: usize) -> Typing
    requires { at ≤ length book.now }
    ensures { result ≡ text_at kind book.now at }
{
    if at + LENGTH_SIZE > book.len() {
        return Typing::Structure;
    }
    let length = match get4(book, at + 1) {
        0 => None,
        n => Some(u64::from(n)),
    };
    Typing::Text { kind, length }
}

// The unit of a number whose record ends at a place.
#[tactic(auto, unfolding(crate::specs::Places::unit_at))]
fn unit_at(book: &[u8], at: usize) -> Option<usize>
    requires { at ≤ length book.now }
    ensures { result ≡ unit_at book.now at }
{
    if at + LENGTH_SIZE <= book.len() && book[at] == kinds::UNIT_OF_NUMBER {
        return Some(get4(book, at + 1) as usize);
    }
    None
}

#[tactic(auto, unfolding(crate::specs::Places::range_at))]
fn range_at(book: &[u8], at: usize) -> Typing
    requires { at ≤ length book.now }
    ensures { result ≡ range_at book.now at }
{
    if at + RANGE_SIZE > book.len() {
        return Typing::Structure;
    }
    Typing::Range {
        decimals: u64::from(book[at + 1]),
        low: signed_at(book, at + 2),
        high: signed_at(book, at + 10),
        unit: unit_at(book, at + RANGE_SIZE),
    }
}

// A structure where there is no type's record.
#[tactic(auto, unfolding(crate::specs::Places::typing_at))]
pub fn typing_at(book: &[u8], at: usize) -> Typing
    ensures { result ≡ typing_at book.now at }
{
    if at >= book.len() {
        return Typing::Structure;
    }
    match book[at] {
        kinds::TEXT => text_at(kinds::TEXT, book, at),
        kinds::MTEXT => text_at(kinds::MTEXT, book, at),
        kinds::RANGE => range_at(book, at),
        kinds::NUMERIC => Typing::Numeric {
            unit: unit_at(book, at + NUMERIC_SIZE),
        },
        kinds::LIST => Typing::Enumeration { place: at },
        _ => Typing::Structure,
    }
}
