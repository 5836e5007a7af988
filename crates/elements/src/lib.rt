// Enumerations and elements: their readers call each other, and write the records of what they read into a lent
// scratch. Each hands on the place behind its records.
#![tactic(auto)]

ghost use Rattle.std.specs.Prelude.{◌≡◌, ◌∷◌, [], ◌+◌, ◌*◌, ◌≤◌, length, leb};
ghost use Rattle.rules.specs.Enumerations.{end};
ghost use Rattle.rules.specs.Grammar.{enough, close_final, deepest};
ghost use Rattle.rules.specs.Grammar.{enumeration as Grammar·enumeration, element as Grammar·element};
ghost use Rattle.readers.specs.Reads.{Held, Reads};
ghost use Rattle.elements.specs.Noted.{Put, Closed, Whole, list_bytes, element_bytes};
ghost use Rattle.elements.specs.Ends.{list_end};

use book::{LIST_END_SIZE, kinds};
use readers::{Read, expect, name_of};
use symbols::{Symbol, faulty};

// Whether n bytes from a place on lie within the total.
fn fits(total: usize, at: usize, n: usize) -> bool
    ensures { result ≡ leb (at + n) total }
{
    n <= total && at <= total - n
}

// A record, if it fits; behind it.
fn put_record(scratch: &mut [u8], at: usize, bytes: &[u8]) -> usize
    ensures { Put scratch.old scratch.new at bytes.now result }
{
    if fits(scratch.len(), at, bytes.len()) {
        ground::put(scratch, at, bytes);
        return at + bytes.len();
    }
    at
}

// The flag of the list that opened at `start`, and its close; behind it.
fn put_close(scratch: &mut [u8], start: usize, at: usize, is_final: bool) -> usize
    ensures { Closed scratch.old scratch.new start at result (end is_final) }
{
    if start < at && start + 1 < at && fits(scratch.len(), at, LIST_END_SIZE) {
        scratch[start + 1] = u8::from(is_final);
        scratch[at] = kinds::LIST_END;
        return at + LIST_END_SIZE;
    }
    at
}

// `FINAL )`.
fn close_final(text: &[u8], scratch: &mut [u8], start: usize, at: usize, y: Symbol) -> Read<usize>
    ensures { Reads text.now close_final
        (Closed scratch.old scratch.new start at result.value) y result.next }
{
    let close = expect(text, y, readers::FINAL);
    Read {
        value: put_close(scratch, start, at, true),
        next: expect(text, close, readers::CLOSE),
    }
}

// What closes a list behind an element.
fn list_end(text: &[u8], scratch: &mut [u8], start: usize, at: usize, y: Symbol) -> Read<usize>
    ensures { Reads text.now list_end
        (Closed scratch.old scratch.new start at result.value) y result.next }
{
    if y.code == readers::COLON {
        let last = expect(text, y, readers::COLON);
        return close_final(text, scratch, start, at, last);
    }
    Read {
        value: put_close(scratch, start, at, false),
        next: expect(text, y, readers::CLOSE),
    }
}

// Enumerations nest at most so deep.
const DEEPEST: usize = 8;

// An enumeration, whose `(` is y, with room for so many nested: its records stand from `start` on. Its loop goes by
// symbols and not by an index: each is cut where the last ends.
// What falls: nesting, from here to its elements; in the loop the symbols that are left.
#[cycle(element_enumeration)]
fn enumeration(
    text: &[u8],
    scratch: &mut [u8],
    y: Symbol,
    start: usize,
    nesting: usize,
) -> Read<usize>
    requires held { Held text.now y }
    requires code_value { y.code ≡ 40 }
    ensures { Reads text.now (Grammar·enumeration (enough text.now) nesting)
        (λ e. Put scratch.old scratch.new start (list_bytes e) result.value) y result.next }
{
    if nesting == 0 {
        return Read {
            value: start,
            next: faulty(4, y),
        };
    }
    let mut z = expect(text, y, readers::ROUND);
    let mut at = put_record(scratch, start, &[kinds::LIST, 0]);
    if z.code == readers::FINAL {
        return close_final(text, scratch, start, at, z);
    }
    loop {
        let e = element(text, scratch, z, at, nesting - 1);
        at = e.value;
        let m = e.next;
        if m.code != readers::COMMA {
            return list_end(text, scratch, start, at, m);
        }
        z = expect(text, m, readers::COMMA);
    }
}

// A name, and perhaps an enumeration, with room for so many nested.
// What falls: nesting, of which the enumeration within takes one; in its loop the symbols that are left.
#[cycle(element_enumeration)]
fn element(text: &[u8], scratch: &mut [u8], y: Symbol, at: usize, nesting: usize) -> Read<usize>
    requires { Held text.now y }
    ensures { Reads text.now (Grammar·element (enough text.now) nesting)
        (λ e. Put scratch.old scratch.new at (element_bytes e) result.value) y result.next }
{
    let z = expect(text, y, readers::NAME);
    let name = name_of(y);
    let record = book::name_record(kinds::ELEMENT, name.offset, name.len);
    let end = put_record(scratch, at, &record);
    if z.code == readers::ROUND {
        return enumeration(text, scratch, z, end, nesting);
    }
    Read {
        value: end,
        next: z,
    }
}

// An outermost enumeration, whose `(` is y: its records stand at the scratch's start. Three bytes for a byte of text
// are enough.
pub fn outermost(text: &[u8], scratch: &mut [u8], y: Symbol) -> Read<usize>
    requires held { Held text.now y }
    requires code_value { (y.code ≡ 40) × (3 * length text.now ≤ length scratch.old) }
    ensures { Reads text.now (Grammar·enumeration (enough text.now) deepest)
        (Whole scratch.old scratch.new result.value) y result.next }
{
    enumeration(text, scratch, y, 0, DEEPEST)
}
