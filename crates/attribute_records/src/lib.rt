// 14 to 18 and 22 of what types an attribute, and its records behind room for the head.
#![tactic(auto)]

ghost use Rattle.std.specs.Prelude.{◌≡◌, true, cond, List, ℕ, ◌+◌, ◌≤◌, ◌<◌, length, take, ltb};
ghost use Rattle.std.proofs.Math.Option.{Option, some};
ghost use Rattle.rules.specs.Grammar.{WrittenType};
ghost use Rattle.rules.specs.Types.{kind_of};
ghost use Rattle.rules.specs.Declarations.{Use, ty_of, Def, Attribute, is_found, is_sort, domain};
ghost use Rattle.rules.specs.Book.{bytes, use_records};
ghost use Rattle.rules.specs.Judge.{attribute_use, is_naming, may_type, naming, descends, or_no_attribute};
ghost use Rattle.rules.specs.All.{AnyIs};
ghost use Rattle.ground.specs.Parts.{splice};
ghost use Rattle.book.specs.Sizes.{head_size};
ghost use Rattle.names.specs.Index.{entry, row, Says, definition_width, Rows};
ghost use Rattle.members.specs.Held.{Held, use_for};
ghost use Rattle.enumerations.specs.Records.{size_of};
ghost use Rattle.parts.specs.Forms.{any_of};
ghost use Rattle.wellformed.specs.Fairness.{FairUse};
ghost use Rattle.tables.specs.Tables.{TableFor, TablesFor};
ghost use Rattle.ground.specs.Rulings.{ruling_of};
ghost use Rattle.fitting.specs.Values.{Typed, Sized};
ghost use Rattle.state.specs.Desks.{Loan, Roomy, Stays, with_book, with_tables};
ghost use Rattle.attribute_names.specs.Facts.{Refers};
ghost use Rattle.attribute_types.specs.Facts.{Ready};
ghost use Rattle.attribute_records.specs.Stages.{base_rules};
ghost use Rattle.attribute_records.specs.Facts.{Lays, LaidAs};

use attribute_types::Uses;
use enumerations::Size;
use ground::Ruling;
use parts::types::Meant;
use state::State;
use state::desk::Desk;
use units::AttributeUnit;
use written::lay_written;

// ---- 16 to 18 of a domain or structure that is named
// What is named is the definition u that the base names, or descends from it; no type in place has descendants.
fn is_descendant(index: &[u16], count: usize, named: usize, u: usize) -> bool
    requires { (named ≤ count) × (u ≤ count) × Rows index.now count }
    ensures { (t b : List ℕ) (ks : List Def) (ms : List Attribute) (y : List ℕ) (total : ℕ) (d : Def) (v : Use)
        → Ready t b ks ms index.now count y total → entry ks named ≡ some d
        → use_for (entry ks u) (ty_of v) ≡ v → kind_of (ty_of (naming d)) ≡ kind_of (ty_of v)
        → result ≡ descends (naming d) v }
{
    u != 0 && names::descends(index, count, named, names::number_of(index, u))
}

// Over the base, both in the book's front; there is no rule where there is none.
fn descent_ruling(
    text: &[u8],
    book: &[u8],
    index: &[u16],
    st: State,
    place: usize,
    u: Uses,
    tables: &mut [u32],
) -> Result<(), Ruling>
    requires sized { Sized u.over.own × Sized u.over.base }
    requires named_le_count { (u.named ≤ st.listing.count) × (u.kept ≤ st.listing.count)
        × Rows index.now st.listing.count × (st.extent.used ≤ length book.now)
        × (st.extent.used ≤ 65535) × TableFor st.extent.used (length tables.old) }
    ensures { (ks : List Def) (ms : List Attribute) (y : List ℕ) (total : ℕ) (d : Def) (o : Option Attribute)
        → Ready text.now (take st.extent.used book.now) ks ms index.now st.listing.count y total
        → entry ks u.named ≡ some d → may_type d.sort ≡ true → is_found o ≡ ltb 0 u.base
        → AnyIs (λ a. FairUse text.now a.use_of) o
        → use_for (entry ks u.kept) (ty_of (or_no_attribute o).use_of) ≡ (or_no_attribute o).use_of
        → Typed text.now (take st.extent.used book.now) (ty_of (naming d)) u.over.own
        → Typed text.now (take st.extent.used book.now) (ty_of (or_no_attribute o).use_of) u.over.base
        → result ≡ ruling_of (base_rules place (is_found o) true (naming d) (or_no_attribute o).use_of) }
{
    let own = u.over.own;
    let base = u.over.base;
    if u.base == 0 {
        return Ok(());
    }
    if fitting::differ(own, base) {
        return Err(Ruling { number: 16, place });
    }
    if is_descendant(index, st.listing.count, u.named, u.kept) {
        return Ok(());
    }
    if types::fits_in_book(text, &book[..st.extent.used], own, base, tables) {
        return Err(Ruling { number: 18, place });
    }
    Err(Ruling { number: 17, place })
}

// ---- records
// The definition that the attribute names: the one at `named`, or with MANDATORY alone the one that its base names; 0
// for a type in place.
pub fn use_at(a: AttributeUnit, named: usize, kept: usize) -> usize
    ensures v_value { (ks : List Def) (w : Option WrittenType) (v : Use) (target : ℕ) → a.written.meant ≡ any_of w
        → named ≡ cond (is_naming w) target 0
        → Refers w (entry ks target) → use_for (entry ks kept) (ty_of v) ≡ v
        → use_for (entry ks result) (ty_of (attribute_use w (entry ks target) v))
        ≡ attribute_use w (entry ks target) v }
    ensures by_index { (count : ℕ) → named ≤ count → kept ≤ count → result ≤ count }
{
    if let Meant::Alone = a.written.meant {
        kept
    } else {
        named
    }
}

// The kind of that record: of a domain, or of a structure.
fn named_kind(index: &[u16], p: usize) -> u8
    requires { Rows index.now p }
    ensures { (t : List ℕ) (d : Def) → Says t d (row definition_width index.now p)
        → result ≡ cond (is_sort domain d.sort) 17 12 }
{
    if names::sort_of(index, p) == ground::sorts::DOMAIN {
        return book::kinds::NAMED_DOMAIN;
    }
    book::kinds::NAMED_STRUCTURE
}

// The record of an attribute that names the definition at a position.
fn lay_named(book: &mut [u8], index: &[u16], at: usize, p: usize) -> Size
    requires { Rows index.now p × (at ≤ 65535 + head_size) }
    ensures { (t b : List ℕ) (ks : List Def) (ms : List Attribute) (count : ℕ) (y : List ℕ) (total : ℕ)
        (d : Def) → Held t b ks ms index.now count y total → entry ks p ≡ some d
        → (result ≡ size_of (use_records (naming d)))
        × (at + length (bytes (use_records (naming d))) ≤ length book.old
        → book.new ≡ splice book.old at (bytes (use_records (naming d)))) }
{
    if at + book::LENGTH_SIZE <= book.len() {
        let r = book::length_record(named_kind(index, p), names::number_of(index, p));
        ground::put(book, at, &r);
    }
    Size {
        bytes: book::LENGTH_SIZE,
        records: 1,
    }
}

// 14 to 18 and 22, and the records, behind room for a head where the book ends.
pub fn lay_use(desk: &mut Desk, st: State, a: AttributeUnit, u: Uses) -> Result<Size, Ruling>
    requires sized { Sized u.over.own × Sized u.over.base × (u.named ≤ st.listing.count)
        × (u.kept ≤ st.listing.count) × Roomy desk.old st }
    requires used_in_bounds { (st.extent.used ≤ length desk.old.book.now) × (length desk.old.book.now ≤ 65535)
        × (length desk.old.scratch.now ≤ 262144)
        × TablesFor (length desk.old.scratch.now) (length desk.old.book.now) (length desk.old.tables.now) }
    ensures stays { Stays desk.old desk.new }
    ensures only { desk.new ≡ with_tables (with_book desk.old desk.new.book.now) desk.new.tables.now }
    ensures value { (ks : List Def) (ms : List Attribute) (y : List ℕ) (total target : ℕ) (v : Option WrittenType)
        → Lays desk.old.text.now (take st.extent.used desk.old.book.now) ks ms
        desk.old.index.now st.listing.count y total desk.old.scratch.now
        a.written u.base target u.named u.kept u.over v
        → LaidAs a.written.place v (entry ks target) (entry ms u.base) (st.extent.used + head_size)
        desk.old.book.now desk.new.book.now result }
{
    let w = a.written;
    let used = st.extent.used;
    if 0 < u.named {
        let text = desk.text;
        let index = &mut *desk.index;
        let book = &mut *desk.book;
        let tables = &mut *desk.tables;
        descent_ruling(text, book, index, st, w.place, u, tables)?;
        return Ok(lay_named(book, index, used + book::HEAD_SIZE, u.named));
    }
    let k = use_at(a, u.named, u.kept);
    let text = desk.text;
    let index = &mut *desk.index;
    let book = &mut *desk.book;
    if 0 < k {
        return Ok(lay_named(book, index, used + book::HEAD_SIZE, k));
    }
    let scratch = &mut *desk.scratch;
    let tables = &mut *desk.tables;
    lay_written(text, book, used, scratch, w, u.over, tables)
}
