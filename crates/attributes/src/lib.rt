// Judging an attribute: what its name and its type break; 19; its head, its row and its place in the open class.
#![tactic(auto)]

ghost use Rattle.std.specs.Prelude.{◌≡◌, ◌||◌, List, ℕ, ◌+◌, ◌≤◌, ◌<◌, length};
ghost use Rattle.rules.specs.Names as R;
ghost use Rattle.rules.specs.Grammar as G;
ghost use Rattle.rules.specs.Units as U;
ghost use Rattle.rules.specs.Declarations as D;
ghost use Rattle.rules.specs.Declarations.{Def, Attribute, attribute_at};
ghost use Rattle.rules.specs.Book.{number_or, head_record};
ghost use Rattle.rules.specs.Judge.{ok, or_no_def, or_no_attribute, base_of_attribute};
ghost use Rattle.rules.specs.Check.{lent, room};
ghost use Rattle.ground.specs.Parts.{splice};
ghost use Rattle.book.specs.Sizes.{head_size};
ghost use Rattle.names.specs.Index.{entry, Rows};
ghost use Rattle.members.specs.Members.{AttributeRows, Filled, slot_of, most, Hand};
ghost use Rattle.members.specs.Held.{Held};
ghost use Rattle.tables.specs.Tables.{TablesFor};
ghost use Rattle.units.specs.declared.Unit.TheVariants.{Attribute as V-as-Attribute};
ghost use Rattle.state.specs.Keeping.{Kept, Answered, Comes, Small, verdict};
ghost use Rattle.state.specs.Desks.{Roomy, Stays, with_book};
ghost use Rattle.attribute_names.specs.Facts.{Given, Within};
ghost use Rattle.attributes.specs.Facts.{PassesIn, after_attribute, flags_in};

use attribute_names::{Bonds, judge_name};
use attribute_records::{lay_use, use_at};
use attribute_types::judge_types;
use enumerations::Size;
use ground::Ruling;
use members::NewAttribute;
use state::desk::Desk;
use state::{NO_BASE, State};
use units::AttributeUnit;
use written::has_room;

// ---- the head
fn names_mandatory(index: &[u16], p: usize) -> bool
    requires { Rows index.now p }
    ensures { (t b : List ℕ) (ks : List Def) (ms : List Attribute) (count : ℕ) (y : List ℕ) (total : ℕ)
        → Held t b ks ms index.now count y total → p ≤ count → result ≡ (or_no_def (entry ks p)).mandatory }
{
    p != 0 && names::is_mandatory(names::flags_of(index, p))
}

fn inherits_mandatory(rows: &[u16], q: usize) -> bool
    requires { AttributeRows rows.now q }
    ensures { (t b : List ℕ) (ks : List Def) (ms : List Attribute) (x : List ℕ) (count total : ℕ)
        → Held t b ks ms x count rows.now total → q ≤ total → result ≡ (or_no_attribute (entry ms q)).mandatory }
{
    q != 0 && names::is_mandatory(members::member_flags(rows, q))
}

// MANDATORY: written here, or of the domain that is named, or of the base; units have none.
fn is_mandatory(index: &[u16], rows: &[u16], written: bool, base: usize, target: usize) -> bool
    requires { AttributeRows rows.now base × Rows index.now target }
    ensures { (t b : List ℕ) (ks : List Def) (ms : List Attribute) (count total : ℕ)
        → Held t b ks ms index.now count rows.now total → base ≤ total → target ≤ count
        → result ≡ (written
        || ((or_no_def (entry ks target)).mandatory || (or_no_attribute (entry ms base)).mandatory)) }
{
    written || names_mandatory(index, target) || inherits_mandatory(rows, base)
}

// The record number of the attribute in a slot, as the book writes it: that of a base.
fn base_number(hand: &[u32], slot: usize) -> usize
    requires { (slot ≤ most) × Hand hand.now }
    ensures { (ms h : List Attribute) (k : ℕ) (n : List ℕ) → Filled ms hand.now k h
        → slot ≡ slot_of n h
        → result ≡ number_or (base_of_attribute (attribute_at n h)) }
{
    if slot == 0 {
        NO_BASE
    } else {
        hand[slot - 1] as usize
    }
}

// The head, where the book ends; its flags are handed on.
fn put_head(desk: &mut Desk, st: State, a: AttributeUnit, b: Bonds) -> u8
    requires { (st.extent.used + head_size ≤ length desk.old.book.now) × Roomy desk.old st × Within st b
        × (b.slot ≤ most) × Hand desk.old.hand.now }
    ensures stays { Stays desk.old desk.new }
    ensures only { desk.new ≡ with_book desk.old desk.new.book.now }
    ensures value { (result < 16) × ((t o : List ℕ) (ks : List Def) (ms h : List Attribute) (k : ℕ) (n : R.Name)
        (p : List (List ℕ)) (w : G.Written) (rs : List ℕ)
        → Held t o ks ms desk.old.index.now st.listing.count desk.old.rows.now st.listing.total
        → Given t n p w rs a → Filled ms desk.old.hand.now k h → b.slot ≡ slot_of n.bytes h
        → (result ≡ flags_in p w (entry ks b.target) (entry ms b.base))
        × (desk.new.book.now ≡ splice desk.old.book.now st.extent.used
        (head_record 6 n (flags_in p w (entry ks b.target) (entry ms b.base))
        (number_or (base_of_attribute (attribute_at n.bytes h)))))) }
{
    let name = a.name;
    let p = a.properties;
    let index = &mut *desk.index;
    let rows = &mut *desk.rows;
    let m = is_mandatory(index, rows, a.written.mandatory, b.base, b.target);
    let f = state::flags(false, p.is_final, p.extended, m);
    let hand = &mut *desk.hand;
    let head = book::head_record(
        book::kinds::ATTRIBUTE,
        name.offset,
        name.len,
        f,
        base_number(hand, b.slot),
    );
    let book = &mut *desk.book;
    ground::put(book, st.extent.used, &head);
    f
}

// ---- 19; the attribute is written, and becomes one of the open class
fn end_attribute(
    desk: &mut Desk,
    st: State,
    a: AttributeUnit,
    b: Bonds,
    use_of: usize,
    size: Size,
) -> Result<State, Ruling>
    requires used_in_bounds { (st.extent.used ≤ length desk.old.book.now) × (length desk.old.book.now ≤ 65535)
        × Small st × Roomy desk.old st × Hand desk.old.hand.now }
    requires within { Within st b × (st.context.in_hand ≤ most) × (use_of ≤ st.listing.count) }
    requires len_bound { (a.name.offset + a.name.len ≤ 65535) × (size.records ≤ size.bytes) }
    ensures stays { Stays desk.old desk.new }
    ensures scratch { desk.new.scratch ≡ desk.old.scratch }
    ensures judged { (s : D.State) (o rs : List ℕ) (c : Def) (n : R.Name) (p : List (List ℕ)) (w : G.Written)
        → length o ≡ length desk.old.book.now → PassesIn desk.old s st o rs c n p w a b use_of size
        → Answered desk.new (room (lent (length o)) n.offset (ok (after_attribute s c n p w))) result }
{
    let name = a.name;
    let used = st.extent.used;
    let place = name.offset;
    if !has_room(desk.book.len(), used, size.bytes) {
        return Err(Ruling { number: 19, place });
    }
    let f = put_head(desk, st, a, b);
    let number = st.extent.records;
    let new = NewAttribute {
        name,
        number,
        place: used,
        flags: usize::from(f),
        use_of,
    };
    desk.enter_attribute(st, new);
    let q = st.listing.total + 1;
    let hand = &mut *desk.hand;
    let n = members::hold(hand, st.context.in_hand, b.slot, number, q);
    Ok(st.with_member(book::HEAD_SIZE + size.bytes, 1 + size.records, n))
}

// An attribute.
pub fn judge_attribute(desk: &mut Desk, st: State, a: AttributeUnit) -> Result<State, Ruling>
    requires text_len_bound { (length desk.old.text.now ≤ 65535) × (length desk.old.book.now ≤ 65535)
        × (length desk.old.scratch.now ≤ 262144) × Roomy desk.old st × Hand desk.old.hand.now }
    requires tables_for { TablesFor (length desk.old.scratch.now) (length desk.old.book.now)
        (length desk.old.tables.now) }
    requires comes { (s : D.State) × (n : R.Name) × (p : List (List ℕ)) × (w : G.Written) × Kept desk.old s st
        × Comes desk.old.text.now s (U.attribute n p w) (V-as-Attribute a) desk.old.scratch.now }
    ensures stays { Stays desk.old desk.new }
    ensures scratch { desk.new.scratch ≡ desk.old.scratch }
    ensures judged { (s : D.State) (n : R.Name) (p : List (List ℕ)) (w : G.Written) → Kept desk.old s st
        → Comes desk.old.text.now s (U.attribute n p w) (V-as-Attribute a) desk.old.scratch.now
        → Answered desk.new (verdict s (U.attribute n p w) desk.old.book.now) result }
{
    let b = judge_name(desk, st, a)?;
    let u = judge_types(desk, st, a, b)?;
    let size = lay_use(desk, st, a, u)?;
    let d = use_at(a, u.named, u.kept);
    end_attribute(desk, st, a, b, d, size)
}
