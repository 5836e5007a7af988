// Types over a base, by value: what is meant, 9 of elements, 14 to 17 and 22, and the records of a type.
#![tactic(auto)]

pub mod laying;

ghost use Rattle.std.specs.Prelude.{◌≡◌, false, not, ◌||◌, List, [], ◌∷◌, ℕ, ◌+◌, ◌≤◌, ◌<◌, length, take};
ghost use Rattle.std.specs.Prelude.{eqb};
ghost use Rattle.std.proofs.Math.Option.{Option};
ghost use Rattle.std.specs.Int.Signed.{lt_z};
ghost use Rattle.rules.specs.Grammar.{WrittenType};
ghost use Rattle.rules.specs.Types.{Ty, kind_of, unit_of, unit_fits, keeps_unit};
ghost use Rattle.rules.specs.Declarations.{Def, measure_in};
ghost use Rattle.rules.specs.Types.{fits as Types·fits};
ghost use Rattle.rules.specs.Book.{type_records};
ghost use Rattle.rules.specs.Judge.{domain_type, element_rule, type_rules, is_naming};
ghost use Rattle.parts.specs.Forms.{any_of};
ghost use Rattle.tables.specs.Tables.{TableFor, TablesFor};
ghost use Rattle.merging.specs.Merging.{LaidAs};
ghost use Rattle.rules.specs.All.{AnyIs};
ghost use Rattle.names.specs.Index.{entry, Rows, Known, Chained};
ghost use Rattle.wellformed.specs.Fairness.{Begins, UnitIn, Rising};
ghost use Rattle.ground.specs.Rulings.{ruling_of};
ghost use Rattle.fitting.specs.Values.{unit_number, Valued, Typed, Sized, FairOrNone};
ghost use Rattle.types.specs.Writing.{Scratched, Once, merge_fits};
ghost use Rattle.book.specs.Sizes.{head_size};

use enumerations::Size;
use fitting::{Typing, fits, unit_of};
use ground::Ruling;
use merging::Misfit;
use numbers::Number;
use parts::types::Meant;

// A type over its base's. keeps: its unit is the base's or descends from it.
// based stands beside base: where there is no base each step judges over a structure, to which an Option would be
// unwrapped at each.
#[derive(Clone, Copy)]
pub struct Over {
    pub based: bool,
    pub own: Typing,
    pub base: Typing,
    pub keeps: bool,
}

// The type that is written, over a base's; its unit as a type by value has it.
pub fn meant(m: Meant, base: Typing, unit: Option<usize>) -> Typing
    ensures { (w : Option WrittenType) (target : Option Def) (b : Ty) → m ≡ any_of w
        → unit ≡ unit_number (measure_in target) → Valued b base → Valued (domain_type w target b) result }
{
    match m {
        Meant::Alone => base,
        Meant::Text { kind } => Typing::Text { kind, length: None },
        Meant::Limited { kind, length, .. } => Typing::Text {
            kind,
            length: Some(length),
        },
        Meant::Range { first, second } => Typing::Range {
            decimals: first.decimals,
            low: first.value,
            high: second.value,
            unit,
        },
        Meant::Numeric => Typing::Numeric { unit },
        Meant::Enumeration { .. } => Typing::Enumeration { place: 0 },
        Meant::Named => Typing::Structure,
    }
}

// ---- rules
// Bounds of unlike decimals, or in the wrong order.
fn is_bad(first: Number, second: Number) -> bool
    ensures { result ≡ (not (eqb first.decimals second.decimals) || lt_z second.value first.value) }
{
    first.decimals != second.decimals || second.value < first.value
}

// 9 of the elements.
pub fn element_ruling(
    text: &[u8],
    scratch: &[u8],
    m: Meant,
    tables: &mut [u32],
) -> Result<(), Ruling>
    requires { (length scratch.now ≤ 262144) × TableFor (length scratch.now) (length tables.old) }
    ensures { (w : Option WrittenType) → m ≡ any_of w → Scratched text.now scratch.now w
        → result ≡ ruling_of (element_rule w ∷ []) }
{
    if let Meant::Enumeration { .. } = m
        && let Some(place) = tables::twice::doubled(text, scratch, 0, tables)
    {
        return Err(Ruling { number: 9, place });
    }
    Ok(())
}

// 14 of bounds and lengths; 15 of an outermost `(FINAL)` without a base, which takes three bytes.
pub fn type_ruling(m: Meant, place: usize, based: bool) -> Result<(), Ruling>
    ensures { (w : Option WrittenType) → m ≡ any_of w → AnyIs (Begins place) w
        → result ≡ ruling_of (type_rules based place w) }
{
    match m {
        Meant::Limited {
            length: 0,
            place,
            ..
        } => Err(Ruling { number: 14, place }),
        Meant::Range { first, second } if is_bad(first, second) => Err(Ruling {
            number: 14,
            place,
        }),
        Meant::Enumeration { bytes: 3 } if !based => Err(Ruling { number: 15, place }),
        _ => Ok(()),
    }
}

// 17 of one type in the book held against another of its kind.
pub fn fits_in_book(text: &[u8], book: &[u8], own: Typing, base: Typing, tables: &mut [u32]) -> bool
    requires sized { Sized own × Sized base }
    requires book_len_bound { (length book.now < 4294967295) × TableFor (length book.now) (length tables.old) }
    ensures { (x b : Ty) → FairOrNone text.now x → FairOrNone text.now b
        → Typed text.now book.now x own → Typed text.now book.now b base
        → kind_of x ≡ kind_of b
        → result ≡ Types·fits x b }
{
    match (own, base) {
        (Typing::Enumeration { place: own }, Typing::Enumeration { place: base }) => {
            holding::fits(text, book, own, base, tables)
        }
        _ => fits(own, base),
    }
}

// ---- 22
// The unit at a position is the base's or descends from it; at 0 is none.
fn unit_fits(index: &[u16], count: usize, unit: usize, base: Option<usize>) -> bool
    requires { (unit ≤ count) × Rows index.now count }
    ensures { (t : List ℕ) (ks : List Def) → Known t ks index.now count
        → Chained ks index.now → Rising ks → (b : Ty) → UnitIn ks b → base ≡ unit_number (unit_of b)
        → result ≡ unit_fits (measure_in (entry ks unit)) (unit_of b) }
{
    match base {
        None => unit == 0,
        Some(number) => names::descends(index, count, unit, number),
    }
}

// The unit of what is written, at a position, is the base's or descends from it.
pub fn keeps_unit(index: &[u16], count: usize, m: Meant, unit: usize, base: Typing) -> bool
    requires { (unit ≤ count) × Rows index.now count }
    ensures { (t : List ℕ) (ks : List Def) → Known t ks index.now count
        → Chained ks index.now → Rising ks
        → (w : Option WrittenType) (target : Option Def) (b : Ty) → m ≡ any_of w → entry ks unit ≡ target
        → UnitIn ks b → Valued b base → result ≡ keeps_unit (domain_type w target b) b }
{
    match m {
        Meant::Alone => true,
        Meant::Range { .. } | Meant::Numeric => unit_fits(index, count, unit, unit_of(base)),
        _ => unit_of(base).is_none(),
    }
}

// ---- records
// The records of the type that is written over a base's, behind room for a head where the first `used` bytes end, if
// they fit; a Misfit is 17 of a written enumeration.
pub fn lay(
    text: &[u8],
    out: &mut [u8],
    used: usize,
    scratch: &[u8],
    m: Meant,
    over: Over,
    tables: &mut [u32],
) -> Result<Size, Misfit>
    requires sized { Sized over.own }
    requires used_in_bounds { (used ≤ length out.old) × (length out.old ≤ 65535) × (length scratch.now ≤ 262144) }
    requires tables_for { TablesFor (length scratch.now) (length out.old) (length tables.old) }
    ensures { (w : Option WrittenType) (target : Option Def) (b : Ty) → m ≡ any_of w → is_naming w ≡ false
        → Scratched text.now scratch.now w → Once w → FairOrNone text.now b
        → Valued (domain_type w target b) over.own
        → Typed text.now (take used out.old) b over.base
        → LaidAs (merge_fits w b) (type_records (domain_type w target b)) (used + head_size) out.old
        out.new result }
{
    let at = used + book::HEAD_SIZE;
    match m {
        Meant::Alone => Ok(laying::alone(out, used, at, over.own, over.base)),
        Meant::Enumeration { .. } => match over.base {
            Typing::Enumeration { place } => merging::merged(
                text, out, used, place, scratch, at, tables,
            ),
            _ => Ok(laying::copied(out, at, scratch)),
        },
        _ => Ok(laying::plain(out, at, over.own)),
    }
}
