// What types an attribute and its base; 12 and 13.
#![tactic(auto)]

ghost use Rattle.std.specs.Prelude.{◌≡◌, cond, List, ℕ, ◌≤◌, ◌<◌, length, get_or, take, IfOk};
ghost use Rattle.std.proofs.Math.Option.{Option, some};
ghost use Rattle.rules.specs.Grammar.{WrittenType};
ghost use Rattle.rules.specs.Declarations.{Use, ty_of, Def, Attribute};
ghost use Rattle.rules.specs.Judge.{attribute_use, is_naming, naming, or_no_attribute};
ghost use Rattle.rules.specs.All.{AnyIs};
ghost use Rattle.names.specs.Index.{entry, row, Rows};
ghost use Rattle.members.specs.Members.{attribute_width, AttributeRows};
ghost use Rattle.members.specs.Held.{Held, use_for};
ghost use Rattle.parts.specs.Forms.{any_of};
ghost use Rattle.wellformed.specs.Fairness.{FairType};
ghost use Rattle.ground.specs.Rulings.{ruling_of};
ghost use Rattle.fitting.specs.Values.{Valued, Typed};
ghost use Rattle.state.specs.Desks.{Roomy};
ghost use Rattle.attribute_names.specs.Facts.{Refers, Within};
ghost use Rattle.attribute_types.specs.Stages.{abstract_domain, head_rules};
ghost use Rattle.attribute_types.specs.Facts.{Ready, Binds, UsesAre, TypingsAre};

use attribute_names::Bonds;
use fitting::Typing;
use ground::{Ruling, sorts};
use parts::types::Meant;
use state::State;
use state::desk::Desk;
use types::Over;
use units::AttributeUnit;

// The positions of an attribute's base, of the definition that it names and of the one that its base names, each 0 for
// none as in the rows of fixed memory; its type over its base's, a structure's where there is no base.
#[derive(Clone, Copy)]
pub struct Uses {
    pub base: usize,
    pub named: usize,
    pub kept: usize,
    pub over: Over,
}

// The domain or structure that the attribute at a position names; 0 for a type in place, and for no attribute.
fn kept_by(rows: &[u16], count: usize, q: usize) -> usize
    requires { AttributeRows rows.now q }
    ensures { (result ≤ count) × ((t b : List ℕ) (ks : List Def) (ms : List Attribute) (x : List ℕ) (total : ℕ)
        → Held t b ks ms x count rows.now total → q ≤ total
        → (use_for (entry ks result) (ty_of (or_no_attribute (entry ms q)).use_of)
        ≡ (or_no_attribute (entry ms q)).use_of)
        × (0 < q → result ≡ get_or (row attribute_width rows.now q) 5 0)) }
{
    if q == 0 {
        return 0;
    }
    let u = members::member_use(rows, q);
    if u <= count { u } else { 0 }
}

// The type that the domain or structure at a position gives.
fn named_type(front: &[u8], index: &[u16], p: usize) -> Typing
    requires { Rows index.now p }
    ensures { (t : List ℕ) (ks : List Def) (ms : List Attribute) (count : ℕ) (y : List ℕ) (total : ℕ) (d : Def)
        → Ready t front.now ks ms index.now count y total → entry ks p ≡ some d
        → Typed t front.now (ty_of (naming d)) result }
{
    if names::sort_of(index, p) == sorts::DOMAIN {
        return fitting::type_behind(front, names::place_of(index, p));
    }
    Typing::Structure
}

// The type of the attribute at a position, which names the definition u.
fn base_type(front: &[u8], index: &[u16], rows: &[u16], q: usize, u: usize) -> Typing
    requires { AttributeRows rows.now q × Rows index.now u }
    ensures { (t : List ℕ) (ks : List Def) (ms : List Attribute) (count : ℕ) (total : ℕ)
        → Ready t front.now ks ms index.now count rows.now total → q ≤ total
        → u ≤ count
        → (0 < q → u ≡ get_or (row attribute_width rows.now q) 5 0)
        → Typed t front.now (ty_of (or_no_attribute (entry ms q)).use_of) result }
{
    if q == 0 {
        return Typing::Structure;
    }
    if u == 0 {
        return fitting::type_behind(front, members::member_place(rows, q));
    }
    named_type(front, index, u)
}

// The position of what is named in place of a type; 0 for a type in place.
fn named_at(m: Meant, target: usize) -> usize
    ensures { (result ≤ target) × ((w : Option WrittenType) → m ≡ any_of w → result ≡ cond (is_naming w) target 0) }
{
    if let Meant::Named = m {
        return target;
    }
    0
}

// The type of the definition that is named, or else of what is written over a base's type.
fn own_type(
    front: &[u8],
    index: &[u16],
    m: Meant,
    target: usize,
    named: usize,
    base: Typing,
) -> Typing
    requires { Rows index.now target × (named ≤ target) }
    ensures { (t : List ℕ) (ks : List Def) (ms : List Attribute) (count : ℕ) (y : List ℕ) (total : ℕ)
        (w : Option WrittenType) (b : Use) → Ready t front.now ks ms index.now count y total
        → target ≤ count
        → m ≡ any_of w → named ≡ cond (is_naming w) target 0 → Refers w (entry ks target) → Valued (ty_of b) base
        → Valued (ty_of (attribute_use w (entry ks target) b)) result
        × (0 < named → Typed t front.now (ty_of (attribute_use w (entry ks target) b)) result) }
{
    if named == 0 {
        return types::meant(m, base, fitting::unit_number(index, target));
    }
    named_type(front, index, named)
}

// ---- 12 and 13
fn is_last(rows: &[u16], q: usize) -> bool
    requires { AttributeRows rows.now q }
    ensures { (t b : List ℕ) (ks : List Def) (ms : List Attribute) (x : List ℕ) (count total : ℕ)
        → Held t b ks ms x count rows.now total → q ≤ total → result ≡ (or_no_attribute (entry ms q)).final }
{
    q != 0 && names::is_final(members::member_flags(rows, q))
}

// An ABSTRACT domain.
fn is_abstract_domain(index: &[u16], p: usize) -> bool
    requires { Rows index.now p }
    ensures { (t b : List ℕ) (ks : List Def) (ms : List Attribute) (count : ℕ) (y : List ℕ) (total : ℕ)
        → Held t b ks ms index.now count y total → p ≤ count
        → result ≡ abstract_domain (entry ks p) }
{
    p != 0
        && names::sort_of(index, p) == sorts::DOMAIN
        && names::is_abstract(names::flags_of(index, p))
}

fn head_ruling(
    index: &[u16],
    rows: &[u16],
    q: usize,
    target: usize,
    own: Typing,
    twice: bool,
    place: usize,
) -> Result<(), Ruling>
    requires { AttributeRows rows.now q × Rows index.now target }
    ensures { (t b : List ℕ) (ks : List Def) (ms : List Attribute) (count total : ℕ) (w : Option WrittenType)
        → Held t b ks ms index.now count rows.now total → q ≤ total → target ≤ count
        → Refers w (entry ks target)
        → Valued (ty_of (attribute_use w (entry ks target) (or_no_attribute (entry ms q)).use_of)) own
        → result ≡ ruling_of (head_rules place (or_no_attribute (entry ms q)).final twice
        (attribute_use w (entry ks target) (or_no_attribute (entry ms q)).use_of) (entry ks target)) }
{
    if is_last(rows, q) {
        return Err(Ruling { number: 12, place });
    }
    if twice || fitting::is_numeric(own) || is_abstract_domain(index, target) {
        return Err(Ruling { number: 13, place });
    }
    Ok(())
}

// What types it and its base, whether or not a rule is broken.
fn uses_of(front: &[u8], index: &[u16], rows: &[u16], count: usize, m: Meant, b: Bonds) -> Uses
    requires { AttributeRows rows.now b.base × (b.target ≤ count) × Rows index.now count }
    ensures { Binds b count result × ((t : List ℕ) (ks : List Def) (ms : List Attribute) (total : ℕ)
        (w : Option WrittenType)
        → Ready t front.now ks ms index.now count rows.now total → b.base ≤ total
        → m ≡ any_of w → AnyIs (FairType t) w → Refers w (entry ks b.target)
        → UsesAre t front.now ks w b.target (entry ms b.base) result) }
{
    let kept = kept_by(rows, count, b.base);
    let base = base_type(front, index, rows, b.base, kept);
    let named = named_at(m, b.target);
    let own = own_type(front, index, m, b.target, named, base);
    let over = Over {
        based: 0 < b.base,
        own,
        base,
        keeps: types::keeps_unit(index, count, m, b.target, base),
    };
    Uses {
        base: b.base,
        named,
        kept,
        over,
    }
}

// Both rules, and the types.
fn types_of(
    front: &[u8],
    index: &[u16],
    rows: &[u16],
    count: usize,
    a: AttributeUnit,
    b: Bonds,
) -> Result<Uses, Ruling>
    requires { AttributeRows rows.now b.base × (b.target ≤ count) × Rows index.now count }
    ensures { IfOk result (Binds b count) × ((t : List ℕ) (ks : List Def) (ms : List Attribute) (total : ℕ)
        (w : Option WrittenType)
        → Ready t front.now ks ms index.now count rows.now total → b.base ≤ total
        → a.written.meant ≡ any_of w → AnyIs (FairType t) w → Refers w (entry ks b.target)
        → TypingsAre t front.now ks a.name.offset a.properties.twice w b.target
        (entry ms b.base) result) }
{
    let twice = a.properties.twice;
    let place = a.name.offset;
    let u = uses_of(front, index, rows, count, a.written.meant, b);
    head_ruling(index, rows, b.base, b.target, u.over.own, twice, place)?;
    Ok(u)
}

pub fn judge_types(desk: &Desk, st: State, a: AttributeUnit, b: Bonds) -> Result<Uses, Ruling>
    requires { (st.extent.used ≤ length desk.now.book.now) × Roomy desk.now st × Within st b }
    ensures { IfOk result (Binds b st.listing.count)
        × ((t : List ℕ) (ks : List Def) (ms : List Attribute) (w : Option WrittenType)
        → Ready t (take st.extent.used desk.now.book.now) ks ms
        desk.now.index.now st.listing.count desk.now.rows.now st.listing.total
        → a.written.meant ≡ any_of w → AnyIs (FairType t) w → Refers w (entry ks b.target)
        → TypingsAre t (take st.extent.used desk.now.book.now) ks a.name.offset a.properties.twice w
        b.target (entry ms b.base) result) }
{
    let front = &desk.book[..st.extent.used];
    types_of(front, desk.index, desk.rows, st.listing.count, a, b)
}
