// The name of an attribute and what it refers to: 4 by count, 9, 10 and 11.
#![tactic(auto)]

ghost use Rattle.std.specs.Prelude.{◌≡◌, false, List, ℕ, ◌+◌, ◌≤◌, ◌<◌, length, IfOk, OnOk};
ghost use Rattle.std.proofs.Math.Option.{Option, none, some};
ghost use Rattle.rules.specs.Names as R;
ghost use Rattle.rules.specs.Grammar as G;
ghost use Rattle.rules.specs.Grammar.{Reference, WrittenType};
ghost use Rattle.rules.specs.Declarations as D;
ghost use Rattle.rules.specs.Declarations.{Def, Attribute, attribute_at, is_found};
ghost use Rattle.rules.specs.Judge.{has_extended, reference_in};
ghost use Rattle.rules.specs.All.{AnyIs};
ghost use Rattle.names.specs.Index.{entry, Known, Rows};
ghost use Rattle.names.specs.References.{Inside};
ghost use Rattle.members.specs.Members.{Filled, slot_of, most, Hand};
ghost use Rattle.members.specs.Held.{Opened, Apart, attributes_in};
ghost use Rattle.parts.specs.Forms.{any_of, optional_of};
ghost use Rattle.wellformed.specs.Fairness.{FairReference};
ghost use Rattle.tables.specs.Tables.{TableFor};
ghost use Rattle.ground.specs.Rulings.{ruling_of};
ghost use Rattle.state.specs.Keeping.{KeptIn};
ghost use Rattle.state.specs.Desks.{Roomy, Stays, with_tables};
ghost use Rattle.state.specs.Targets.{Ruled};
ghost use Rattle.attribute_names.specs.Stages.{name_rules, reference_rules};
ghost use Rattle.attribute_names.specs.Facts.{Given, Slots, SlotIs, Reaches, references_in, Within, BondsAre};

use ground::Ruling;
use members::MOST;
use parts::types::Written;
use state::State;
use state::desk::Desk;
use units::AttributeUnit;

// The slot of an attribute's name in the hand, the position of the nearest inherited attribute and that of what the
// type's reference leads to, each 0 for none as in the rows of fixed memory.
#[derive(Clone, Copy)]
pub struct Bonds {
    pub slot: usize,
    pub base: usize,
    pub target: usize,
}

// ---- 4 and 9 of the name
fn name_ruling(
    hand: &[u32],
    in_hand: usize,
    slot: usize,
    class: usize,
    extended: bool,
    place: usize,
) -> Result<(), Ruling>
    requires { (slot ≤ in_hand) × (in_hand ≤ most) × Hand hand.now }
    ensures { OnOk result (slot ≡ 0 → in_hand < most)
        × ((ms : List Attribute) (c : Def) (n : R.Name) (o : Opened ms hand.now in_hand c) → Apart c
        → class ≡ c.number
        → place ≡ n.offset → slot ≡ slot_of n.bytes o.hand → result ≡ ruling_of (name_rules c n extended)) }
{
    if slot == 0 {
        if MOST <= in_hand {
            return Err(Ruling { number: 4, place });
        }
        return Ok(());
    }
    if members::is_own(hand, slot, class) || !extended {
        return Err(Ruling { number: 9, place });
    }
    Ok(())
}

// The same, and the slot.
fn slot_of(desk: &Desk, st: State, a: AttributeUnit) -> Result<usize, Ruling>
    requires { Inside desk.now.text.now a.name × Roomy desk.now st × (st.context.in_hand ≤ most)
        × Hand desk.now.hand.now }
    ensures { IfOk result (Slots st.context.in_hand)
        × ((s : D.State) (c : Def) (n : R.Name) (p : List (List ℕ)) (w : G.Written) (o rs : List ℕ)
        → KeptIn desk.now o s st → s.open_class ≡ some c → Given desk.now.text.now n p w rs a
        → SlotIs s c n (has_extended p) desk.now.hand.now st.context.in_hand result) }
{
    let name = a.name;
    let n = st.context.in_hand;
    let total = st.listing.total;
    let slot = members::find_attribute(desk.text, desk.rows, total, desk.hand, n, name);
    let class = names::number_of(desk.index, st.listing.count + 1);
    name_ruling(
        desk.hand,
        n,
        slot,
        class,
        a.properties.extended,
        name.offset,
    )?;
    Ok(slot)
}

// ---- 10 and 11
// The position of the attribute in a slot.
fn found_at(hand: &[u32], total: usize, slot: usize) -> usize
    requires { (slot ≤ most) × Hand hand.now }
    ensures { (result ≤ total) × ((ms h : List Attribute) (k : ℕ) (n : List ℕ) → total ≡ length ms
        → Filled ms hand.now k h
        → slot ≡ slot_of n h → entry ms result ≡ attribute_at n h) }
{
    if slot == 0 {
        return 0;
    }
    let q = hand[MOST + (slot - 1)] as usize;
    if q <= total { q } else { 0 }
}

fn reference_ruling(
    index: &[u16],
    w: Written,
    extended: bool,
    base: usize,
    target: usize,
    place: usize,
) -> Result<(), Ruling>
    requires { Rows index.now target }
    ensures { (t : List ℕ) (ks : List Def) (count : ℕ) (ms : List Attribute) (v : Option WrittenType)
        → Known t ks index.now count → target ≤ count → base ≤ length ms → w.meant ≡ any_of v
        → w.reference ≡ optional_of (reference_in v) → (reference_in v ≡ none → entry ks target ≡ none)
        → result ≡ ruling_of (reference_rules place extended (is_found (entry ms base)) v (entry ks target)) }
{
    if extended && base == 0 {
        return Err(Ruling { number: 10, place });
    }
    state::target_ruling(index, w.meant, w.reference, target)
}

// The same, and what the name in the slot and the reference reach; no own attribute has the name.
fn reach(desk: &Desk, st: State, a: AttributeUnit, slot: usize) -> Result<Bonds, Ruling>
    requires inside { Inside desk.now.text.now st.context.model × Roomy desk.now st × (slot ≤ most)
        × Hand desk.now.hand.now }
    requires reference_value { (b : Option Reference) × (a.written.reference ≡ optional_of b)
        × AnyIs (FairReference desk.now.text.now) b }
    ensures { IfOk result (λ e. (e.slot ≡ slot) × (e.base ≤ st.listing.total) × (e.target ≤ st.listing.count))
        × ((s : D.State) (c : Def) (n : R.Name) (p : List (List ℕ)) (w : G.Written) (o rs : List ℕ)
        → KeptIn desk.now o s st → s.open_class ≡ some c → Given desk.now.text.now n p w rs a
        → is_found (attribute_at n.bytes c.own) ≡ false
        → ((q : Opened (attributes_in s) desk.now.hand.now st.context.in_hand c)
        → slot ≡ slot_of n.bytes q.hand)
        → Ruled result (references_in s c n (has_extended p) w.type) (Reaches s c n w.type)) }
{
    let w = a.written;
    let base = found_at(desk.hand, st.listing.total, slot);
    let target = desk.target(st, w.reference);
    let extended = a.properties.extended;
    reference_ruling(desk.index, w, extended, base, target, a.name.offset)?;
    Ok(Bonds { slot, base, target })
}

// ---- 9 of elements, and all
// 4 to 11.
pub fn judge_name(desk: &mut Desk, st: State, a: AttributeUnit) -> Result<Bonds, Ruling>
    requires inside { Inside desk.old.text.now st.context.model × Inside desk.old.text.now a.name
        × Roomy desk.old st }
    requires in_hand_bound { (st.context.in_hand ≤ most) × Hand desk.old.hand.now }
    requires scratch_len_bound { (length desk.old.scratch.now ≤ 262144)
        × TableFor (length desk.old.scratch.now) (length desk.old.tables.now) }
    requires reference_value { (b : Option Reference) × (a.written.reference ≡ optional_of b)
        × AnyIs (FairReference desk.old.text.now) b }
    ensures stays { Stays desk.old desk.new }
    ensures only { desk.new ≡ with_tables desk.old desk.new.tables.now }
    ensures bonds { IfOk result (Within st)
        × ((s : D.State) (c : Def) (n : R.Name) (p : List (List ℕ)) (w : G.Written) (o : List ℕ)
        → KeptIn desk.old o s st → s.open_class ≡ some c → Given desk.old.text.now n p w desk.old.scratch.now a
        → BondsAre s c n (has_extended p) w.type desk.old.hand.now st.context.in_hand result) }
{
    let slot = slot_of(desk, st, a)?;
    let text = desk.text;
    let scratch = &mut *desk.scratch;
    let tables = &mut *desk.tables;
    types::element_ruling(text, scratch, a.written.meant, tables)?;
    reach(desk, st, a, slot)
}
