// The records of a type, written where they fit and counted in any case.
ghost use Rattle.std.specs.Prelude.{◌≡◌, true, List, [], ◌∷◌, ℕ, ◌+◌, ◌≤◌, length, take};
ghost use Rattle.rules.specs.Enumerations.{Enum};
ghost use Rattle.rules.specs.Types.{Ty};
ghost use Rattle.rules.specs.Book.{type_records};
ghost use Rattle.ground.specs.Parts.{part, splice};
ghost use Rattle.enumerations.specs.Standing.{Stands};
ghost use Rattle.enumerations.specs.Records.{records};
ghost use Rattle.merging.specs.Merging.{LaidAs};
ghost use Rattle.fitting.specs.Values.{Valued, Typed, Sized};
ghost use Rattle.types.specs.Meaning.{unit_records_by, plain_records};

use book::kinds;
use enumerations::{Size, size_of};
use fitting::Typing;
use ground::put_if;

fn put_record(out: &mut [u8], at: usize, src: &[u8]) -> Size
    requires { (at ≤ 65546) × (length src.now ≤ 262144) }
    ensures { LaidAs true (src.now ∷ []) at out.old out.new (Ok result) }
{
    put_if(out, at, src);
    Size {
        bytes: src.len(),
        records: 1,
    }
}

// A number's record, and behind it that of its unit, if it has one.
fn put_number(out: &mut [u8], at: usize, src: &[u8], unit: Option<usize>) -> Size
    requires { (at ≤ 65546) × (length src.now ≤ 262144) }
    ensures { LaidAs true (src.now ∷ unit_records_by unit) at out.old out.new (Ok result) }
{
    let Some(number) = unit else {
        return put_record(out, at, src);
    };
    let r = book::length_record(kinds::UNIT_OF_NUMBER, number);
    put_if(out, at, src);
    put_if(out, at + src.len(), &r);
    Size {
        bytes: src.len() + book::LENGTH_SIZE,
        records: 2,
    }
}

// The records of a type other than an enumeration.
pub fn plain(out: &mut [u8], at: usize, x: Typing) -> Size
    requires sized { Sized x }
    requires at_bound { at ≤ 65546 }
    ensures { LaidAs true (plain_records x) at out.old out.new (Ok result) }
{
    match x {
        Typing::Text { kind, length } => {
            put_record(
                out,
                at,
                &book::length_record(kind, length.unwrap_or(0) as usize),
            )
        }
        Typing::Range {
            decimals,
            low,
            high,
            unit,
        } => put_number(
            out,
            at,
            &book::range_record(decimals as u8, low, high),
            unit,
        ),
        Typing::Numeric { unit } => put_number(out, at, &[kinds::NUMERIC], unit),
        Typing::Enumeration { .. } | Typing::Structure => Size {
            bytes: 0,
            records: 0,
        },
    }
}

// The enumeration that stands at the start of the scratch.
pub fn copied(out: &mut [u8], at: usize, scratch: &[u8]) -> Size
    requires { (at ≤ 65546) × (length scratch.now ≤ 262144) }
    ensures { (t : List ℕ) (e : Enum) → Stands t scratch.now e 0
        → LaidAs true (records e) at out.old out.new (Ok result) }
{
    let s = size_of(scratch, 0);
    if s.bytes <= scratch.len() {
        put_if(out, at, &scratch[..s.bytes]);
    }
    s
}

// Some of the first `used` bytes, behind them.
fn copy_if(out: &mut [u8], used: usize, from: usize, n: usize, at: usize)
    requires { (used ≤ at) × (used ≤ length out.old) × (at ≤ 65546) }
    ensures { from + n ≤ used → at + n ≤ length out.old
        → out.new ≡ splice out.old at (part out.old from n) }
{
    if from <= used && n <= used - from && at + n <= out.len() {
        enumerations::copy_within(out, from, n, at);
    }
}

// The enumeration that stands in the first `used` bytes, once more.
fn again(out: &mut [u8], used: usize, at: usize, from: usize) -> Size
    requires { (used ≤ at) × (used ≤ length out.old) × (at ≤ 65546) }
    ensures { (t : List ℕ) (e : Enum) → Stands t (take used out.old) e from
        → LaidAs true (records e) at out.old out.new (Ok result) }
{
    let s = size_of(&out[..used], from);
    copy_if(out, used, from, s.bytes, at);
    s
}

// The base's type.
pub fn alone(out: &mut [u8], used: usize, at: usize, own: Typing, base: Typing) -> Size
    requires sized { Sized own }
    requires used_le_at { (used ≤ at) × (used ≤ length out.old) × (at ≤ 65546) }
    ensures { (t : List ℕ) (b : Ty) → Valued b own → Typed t (take used out.old) b base
        → LaidAs true (type_records b) at out.old out.new (Ok result) }
{
    match base {
        Typing::Enumeration { place } => again(out, used, at, place),
        _ => plain(out, at, own),
    }
}
