// Types by value, a number with its unit: read from the book, and held against each other.
#![tactic(auto)]

pub mod reading;

ghost use Rattle.std.specs.Prelude.{◌≡◌, not, List, ◌∷◌, ℕ, ◌≤◌, ◌<◌, length, eqb};
ghost use Rattle.rules.specs.Types.{Ty, kind_of};
ghost use Rattle.rules.specs.Book.{Record, type_records};
ghost use Rattle.rules.specs.Declarations.{Def, measure_in};
ghost use Rattle.names.specs.Index.{entry, Rows, Known};
ghost use Rattle.book.specs.Places.{Stands};
ghost use Rattle.book.specs.Sizes.{head_size};
ghost use Rattle.wellformed.specs.Fairness.{Fair};
ghost use Rattle.fitting.specs.Values.{unit_number, Valued, Typed, Sized, UnitNumbered};
ghost use Rattle.fitting.specs.Fitting.{is_numeric_by, unit_by, sort_of, limit_fits, fits_by};

use crate::reading::typing_at;

// A text type by the byte of kind of its record, as the book has it and parts and readers hand it on; an enumeration by
// the place of its records in the book; a number's unit by its record number.
#[derive(Clone, Copy)]
pub enum Typing {
    Text {
        kind: u8,
        length: Option<u64>,
    },
    Range {
        decimals: u64,
        low: i64,
        high: i64,
        unit: Option<usize>,
    },
    Numeric {
        unit: Option<usize>,
    },
    Enumeration {
        place: usize,
    },
    Structure,
}

// What 16 tells apart.
#[derive(Clone, Copy, PartialEq, Eq)]
enum Sort {
    Line,
    Lines,
    Number,
    Enumeration,
    Structure,
}

// The type whose records stand behind the head at a place.
pub fn type_behind(book: &[u8], head: usize) -> Typing
    requires { head < 65536 }
    ensures { (t : List ℕ) (h : Record) (x : Ty) → length h ≡ head_size → Fair t x → UnitNumbered x
        → Stands book.now head (h ∷ type_records x)
        → Typed t book.now x result }
{
    typing_at(book, head + book::HEAD_SIZE)
}

// NUMERIC; a range is no such type.
pub fn is_numeric(x: Typing) -> bool
    ensures { result ≡ is_numeric_by x }
{
    matches!(x, Typing::Numeric { .. })
}

// The unit of a number.
pub fn unit_of(x: Typing) -> Option<usize>
    ensures { result ≡ unit_by x }
{
    match x {
        Typing::Range { unit, .. } | Typing::Numeric { unit } => unit,
        _ => None,
    }
}

// The unit at a position of the index, as a type by value has it.
pub fn unit_number(index: &[u16], unit: usize) -> Option<usize>
    requires { Rows index.now unit }
    ensures { (t : List ℕ) (ks : List Def) (count : ℕ) → unit ≤ count → Known t ks index.now count
        → result ≡ unit_number (measure_in (entry ks unit)) }
{
    if unit == 0 {
        return None;
    }
    Some(names::number_of(index, unit))
}

fn sort_of(x: Typing) -> Sort
    ensures { result ≡ sort_of x }
{
    match x {
        Typing::Text { kind: 9, .. } => Sort::Lines,
        Typing::Text { .. } => Sort::Line,
        Typing::Range { .. } | Typing::Numeric { .. } => Sort::Number,
        Typing::Enumeration { .. } => Sort::Enumeration,
        Typing::Structure => Sort::Structure,
    }
}

// 16.
pub fn differ(own: Typing, base: Typing) -> bool
    ensures { (x b : Ty) → Valued x own → Valued b base → result ≡ not (eqb (kind_of x) (kind_of b)) }
{
    sort_of(own) != sort_of(base)
}

// ---- 17, of types of one kind
fn limit_fits(own: Option<u64>, base: Option<u64>) -> bool
    ensures { result ≡ limit_fits own base }
{
    match (own, base) {
        (_, None) => true,
        (None, Some(_)) => false,
        (Some(own), Some(base)) => own <= base,
    }
}

// An enumeration is not judged here.
pub fn fits(own: Typing, base: Typing) -> bool
    requires { Sized own × Sized base }
    ensures { result ≡ fits_by own base }
{
    match (own, base) {
        (Typing::Text { length: own, .. }, Typing::Text { length: base, .. }) => limit_fits(
            own, base,
        ),
        (
            Typing::Range {
                decimals,
                low,
                high,
                ..
            },
            Typing::Range {
                decimals: base_decimals,
                low: base_low,
                high: base_high,
                ..
            },
        ) => {
            numbers::low_fits(decimals, base_decimals, low, base_low)
                && numbers::high_fits(decimals, base_decimals, high, base_high)
        }
        (Typing::Numeric { .. }, base) => is_numeric(base),
        _ => true,
    }
}
