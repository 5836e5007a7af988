// The book: kinds and sizes of records, the name that is written in one, the bytes of new records.
#![tactic(auto)]

pub mod flags;
pub mod kinds;

ghost use Rattle.std.specs.Prelude.{◌≡◌, ◌+◌, ◌≤◌, length};
ghost use Rattle.book.specs.Sizes.{name_size};
ghost use Rattle.book.specs.Forms.{name_form, head_form, range_form, length_form};
ghost use Rattle.book.specs.Names.{Written};

use ground::Name;

// ---- what the kind of a record fixes
// Where the parts of a name stand in a record that has one.
pub const OFFSET: usize = 1;

pub const LENGTH: usize = 5;

// The size of what a record with a name begins with: kind, offset, length.
pub const NAME_SIZE: usize = LENGTH + 1;

// Where flags and base stand in a record that has them, and FINAL in one that opens an enumeration.
pub const FLAGS: usize = NAME_SIZE;

pub const BASE: usize = FLAGS + 1;

pub const LIST_FINAL: usize = 1;

// The sizes of records, the byte of kind with them.
pub const MODEL_SIZE: usize = NAME_SIZE;

pub const TOPIC_SIZE: usize = NAME_SIZE;

pub const TOPIC_END_SIZE: usize = 1;

// A class, structure, attribute, domain or unit.
pub const HEAD_SIZE: usize = 11;

// TEXT, MTEXT, a structure or domain that is named, the unit of a number.
pub const LENGTH_SIZE: usize = 5;

pub const RANGE_SIZE: usize = 18;

pub const NUMERIC_SIZE: usize = 1;

// An enumeration opens, one of its elements, it closes.
pub const LIST_SIZE: usize = 2;

pub const ELEMENT_SIZE: usize = NAME_SIZE;

pub const LIST_END_SIZE: usize = 1;

// The end of a class or structure.
pub const CLASS_END_SIZE: usize = 1;

// ---- the name that a record has
// The name that is written in the record at a place.
pub fn written_name(book: &[u8], at: usize) -> Name
    requires { at + name_size ≤ length book.now }
    ensures { Written book.now at result }
{
    Name {
        offset: ground::get4(book, at + OFFSET) as usize,
        len: usize::from(book[at + LENGTH]),
    }
}

// ---- the bytes of new records
// Byte by byte, as a copy of each part to its place is no plainer.
pub fn name_record(kind: u8, offset: usize, len: usize) -> [u8; NAME_SIZE]
    ensures { result ≡ name_form kind offset len }
{
    let o = ground::low4(offset);
    [kind, o[0], o[1], o[2], o[3], (len % 256) as u8]
}

pub fn head_record(kind: u8, offset: usize, len: usize, flags: u8, base: usize) -> [u8; HEAD_SIZE]
    ensures { result ≡ head_form kind offset len flags base }
{
    let o = ground::low4(offset);
    let b = ground::low4(base);
    [
        kind,
        o[0],
        o[1],
        o[2],
        o[3],
        (len % 256) as u8,
        flags,
        b[0],
        b[1],
        b[2],
        b[3],
    ]
}

pub fn range_record(decimals: u8, low: i64, high: i64) -> [u8; RANGE_SIZE]
    ensures { result ≡ range_form decimals low high }
{
    let l = ground::low8(low);
    let h = ground::low8(high);
    [
        kinds::RANGE,
        decimals,
        l[0],
        l[1],
        l[2],
        l[3],
        l[4],
        l[5],
        l[6],
        l[7],
        h[0],
        h[1],
        h[2],
        h[3],
        h[4],
        h[5],
        h[6],
        h[7],
    ]
}

// Of a length or a record number: kinds 8, 9, 12, 17 and 19.
pub fn length_record(kind: u8, n: usize) -> [u8; LENGTH_SIZE]
    ensures { result ≡ length_form kind n }
{
    let b = ground::low4(n);
    [kind, b[0], b[1], b[2], b[3]]
}
