// Types, and what stands behind the `=` of a domain or the `:` of an attribute.
ghost use Rattle.std.specs.Prelude.{◌≡◌, Bool, None, ◌+◌, ◌*◌, ◌≤◌, ◌<◌, length};
ghost use Rattle.std.proofs.Math.Option.{none, some};
ghost use Rattle.rules.specs.Symbols.{most_digits, digit_count};
ghost use Rattle.rules.specs.Symbols.{Symbol as rules·Symbol};
ghost use Rattle.rules.specs.Grammar.{text_length, text_type, range_type, numeric_type, type_of, type_or_reference};
ghost use Rattle.rules.specs.Grammar.{written};
ghost use Rattle.ground.specs.Parts.{part};
ghost use Rattle.book.specs.Forms.{text_kind};
ghost use Rattle.symbols.specs.Cut.{faulty_as};
ghost use Rattle.readers.specs.Reads.{Cuts, Held, Reads};
ghost use Rattle.parts.specs.Forms.{optional_of, number_of, whole_of, whole_at, limit_of, text_code, type_by};
ghost use Rattle.parts.specs.Forms.{mandatory_by, Plainly, Means, MeansAny, MeansAll, read_at};

use book::kinds;
use ground::{Reference, is_digit};
use numbers::Number;
use readers::{Read, expect};
use symbols::{Symbol, faulty};

// What is written: MANDATORY alone; TEXT or MTEXT, by the kind of its record, and with a length that stands at a place;
// a range; NUMERIC; an enumeration, whose records stand in the scratch up to a place; a reference in place of a type.
// The kind is a byte: an enum would be no plainer, as it would only be turned into that byte where the record is laid.
#[derive(Clone, Copy)]
pub enum Meant {
    Alone,
    Text { kind: u8 },
    Limited { kind: u8, length: u64, place: usize },
    Range { first: Number, second: Number },
    Numeric,
    Enumeration { bytes: usize },
    Named,
}

// The type, and the reference to its unit or in place of a type.
#[derive(Clone, Copy)]
pub struct Meaning {
    pub meant: Meant,
    pub reference: Option<Reference>,
}

// MANDATORY, the place of the type's first symbol, the type, and the reference to its unit or in place of a type.
#[derive(Clone, Copy)]
pub struct Written {
    pub mandatory: bool,
    pub place: usize,
    pub meant: Meant,
    pub reference: Option<Reference>,
}

// The number that the part writes, if it is a whole one without a sign.
fn whole_number(text: &[u8], place: usize, len: usize) -> Option<u64>
    requires len_in_bounds { (place + len ≤ length text.now) × (0 < len) }
    requires len_bound { digit_count (part text.now place len) ≤ most_digits }
    ensures { result ≡ whole_of (part text.now place len) }
{
    if is_digit(text[place]) && numbers::number_at(text, place, len).decimals == 0 {
        return Some(numbers::digits_at(text, place, len));
    }
    None
}

// The number that the symbol writes, if it is such a one.
fn count(text: &[u8], y: Symbol) -> Option<u64>
    requires { Held text.now y }
    ensures { result ≡ whole_at text.now y }
{
    if y.code != readers::NUMBER {
        return None;
    }
    whole_number(text, y.place, symbols::length_of(y))
}

// No length: the symbol goes on as a fault of the number.
fn no_length(number: u32, y: Symbol) -> Read<Meaning>
    ensures { (result.next ≡ faulty_as number y) × (result.value.reference ≡ None) }
{
    Read {
        value: Meaning {
            meant: Meant::Alone,
            reference: None,
        },
        next: faulty(number, y),
    }
}

// The greatest length of a text.
const LONGEST: u64 = 4294967295;

// The length behind `*`.
fn text_length(text: &[u8], kind: u8, y: Symbol) -> Read<Meaning>
    requires { Held text.now y }
    ensures reads { (m : Bool) → kind ≡ text_kind m
        → Reads text.now text_length (λ s. result.value.meant ≡ limit_of m (some s)) y result.next }
    ensures reference_value { result.value.reference ≡ optional_of none }
{
    let Some(length) = count(text, y) else {
        return no_length(y.refusal, y);
    };
    if length > LONGEST {
        return no_length(4, y);
    }
    Read {
        value: Meaning {
            meant: Meant::Limited {
                kind,
                length,
                place: y.place,
            },
            reference: None,
        },
        next: expect(text, y, readers::NUMBER),
    }
}

// TEXT or MTEXT, which is y.
fn text_type(text: &[u8], kind: u8, y: Symbol) -> Read<Meaning>
    requires { Held text.now y }
    ensures { (m : Bool) → y.code ≡ text_code m → kind ≡ text_kind m
        → Reads text.now text_type (Plainly result.value) y result.next }
{
    let z = expect(text, y, y.code);
    if z.code == readers::STAR {
        let length = expect(text, z, readers::STAR);
        return text_length(text, kind, length);
    }
    Read {
        value: Meaning {
            meant: Meant::Text { kind },
            reference: None,
        },
        next: z,
    }
}

// What a number symbol writes.
fn number(text: &[u8], y: Symbol) -> Number
    requires { Held text.now y }
    ensures { (z : rules·Symbol) → Cuts text.now z y → y.code ≡ 2 → result ≡ number_of z.bytes }
{
    if y.code == readers::NUMBER {
        return numbers::number_at(text, y.place, symbols::length_of(y));
    }
    Number {
        value: 0,
        decimals: 0,
    }
}

fn range_type(text: &[u8], y: Symbol) -> Read<Meaning>
    requires { Held text.now y }
    ensures { Reads text.now range_type (Plainly result.value) y result.next }
{
    let dots = expect(text, y, readers::NUMBER);
    let bound = expect(text, dots, readers::DOTS);
    let first = number(text, y);
    let second = number(text, bound);
    let behind = expect(text, bound, readers::NUMBER);
    let unit = crate::read_unit_reference(text, behind);
    Read {
        value: Meaning {
            meant: Meant::Range { first, second },
            reference: unit.value,
        },
        next: unit.next,
    }
}

// NUMERIC, which is y.
fn numeric_type(text: &[u8], y: Symbol) -> Read<Meaning>
    ensures { Reads text.now numeric_type (Plainly result.value) y result.next }
{
    let behind = expect(text, y, readers::NUMERIC);
    let unit = crate::read_unit_reference(text, behind);
    Read {
        value: Meaning {
            meant: Meant::Numeric,
            reference: unit.value,
        },
        next: unit.next,
    }
}

fn plain_type(text: &[u8], y: Symbol) -> Read<Meaning>
    requires { Held text.now y }
    ensures { (y.code ≡ 40 → ⊥) → Reads text.now type_of (Plainly result.value) y result.next }
{
    match y.code {
        readers::TEXT => text_type(text, kinds::TEXT, y),
        readers::MTEXT => text_type(text, kinds::MTEXT, y),
        readers::NUMERIC => numeric_type(text, y),
        _ => range_type(text, y),
    }
}

fn type_of(text: &[u8], scratch: &mut [u8], y: Symbol) -> Read<Meaning>
    requires held { Held text.now y }
    requires text_in_bounds { 3 * length text.now ≤ length scratch.old }
    ensures { Reads text.now type_of (Means scratch.old scratch.new result.value) y result.next }
{
    if y.code != readers::ROUND {
        return plain_type(text, y);
    }
    let list = elements::outermost(text, scratch, y);
    Read {
        value: Meaning {
            meant: Meant::Enumeration { bytes: list.value },
            reference: None,
        },
        next: list.next,
    }
}

fn type_or_reference(text: &[u8], scratch: &mut [u8], y: Symbol) -> Read<Meaning>
    requires held { Held text.now y }
    requires text_in_bounds { 3 * length text.now ≤ length scratch.old }
    ensures { Reads text.now type_or_reference
        (Means scratch.old scratch.new result.value) y result.next }
{
    if y.code != readers::NAME {
        return type_of(text, scratch, y);
    }
    let named = crate::read_reference(text, y);
    Read {
        value: Meaning {
            meant: Meant::Named,
            reference: Some(named.value),
        },
        next: named.next,
    }
}

// A type, or a reference where that is allowed.
fn type_by(text: &[u8], scratch: &mut [u8], y: Symbol, or_reference: bool) -> Read<Meaning>
    requires held { Held text.now y }
    requires text_in_bounds { 3 * length text.now ≤ length scratch.old }
    ensures { Reads text.now (type_by or_reference)
        (Means scratch.old scratch.new result.value) y result.next }
{
    if or_reference {
        type_or_reference(text, scratch, y)
    } else {
        type_of(text, scratch, y)
    }
}

// Behind MANDATORY: nothing, where `based` allows that and the unit ends, or a type.
fn after_mandatory(
    text: &[u8],
    scratch: &mut [u8],
    y: Symbol,
    based: bool,
    or_reference: bool,
) -> Read<Meaning>
    requires held { Held text.now y }
    requires text_in_bounds { 3 * length text.now ≤ length scratch.old }
    ensures { Reads text.now (mandatory_by based (type_by or_reference))
        (MeansAny scratch.old scratch.new result.value) y result.next }
{
    if based && y.code == readers::SEMICOLON {
        return Read {
            value: Meaning {
                meant: Meant::Alone,
                reference: None,
            },
            next: y,
        };
    }
    type_by(text, scratch, y, or_reference)
}

// The same type, with MANDATORY before it or not, and its place.
fn with_place(mandatory: bool, place: usize, m: Read<Meaning>) -> Read<Written>
    ensures { result ≡ read_at mandatory place m }
{
    Read {
        value: Written {
            mandatory,
            place,
            meant: m.value.meant,
            reference: m.value.reference,
        },
        next: m.next,
    }
}

// MANDATORY, perhaps, and a type, or a reference where that is allowed.
pub fn read_written(
    text: &[u8],
    scratch: &mut [u8],
    y: Symbol,
    based: bool,
    or_reference: bool,
) -> Read<Written>
    requires held { Held text.now y }
    requires text_in_bounds { 3 * length text.now ≤ length scratch.old }
    ensures { Reads text.now (written based (type_by or_reference))
        (MeansAll scratch.old scratch.new result.value) y result.next }
{
    if y.code != readers::MANDATORY {
        let m = type_by(text, scratch, y, or_reference);
        return with_place(false, y.place, m);
    }
    let z = expect(text, y, readers::MANDATORY);
    let m = after_mandatory(text, scratch, z, based, or_reference);
    with_place(true, z.place, m)
}
