// Judging the heads of classes and structures, and units.
#![tactic(auto)]

ghost use Rattle.std.specs.Prelude.{◌≡◌, Bool, false, List, [], ℕ, ◌+◌, ◌*◌, ◌≤◌, ◌<◌, length, IfOk};
ghost use Rattle.std.proofs.Math.Option.{Option, none};
ghost use Rattle.rules.specs.Names as R;
ghost use Rattle.rules.specs.Grammar as G;
ghost use Rattle.rules.specs.Units as U;
ghost use Rattle.rules.specs.Declarations as D;
ghost use Rattle.rules.specs.Declarations.{Def, Sort, attributes_of, known};
ghost use Rattle.rules.specs.Units.{class_sort};
ghost use Rattle.rules.specs.Judge.{or_no_def, resolved, next_state};
ghost use Rattle.rules.specs.All.{AnyIs};
ghost use Rattle.ground.specs.Parts.{splice};
ghost use Rattle.book.specs.Sizes.{head_size};
ghost use Rattle.enumerations.specs.Standing.{InText};
ghost use Rattle.names.specs.Index.{entry, Known, definition_width};
ghost use Rattle.names.specs.References.{Inside};
ghost use Rattle.names.specs.Rows.{definition_row};
ghost use Rattle.members.specs.Members.{most, Hand};
ghost use Rattle.members.specs.Held.{Opened, attributes_in};
ghost use Rattle.parts.specs.Forms.{optional_of};
ghost use Rattle.units.specs.declared.Unit.TheVariants.{Class as V-as-Class, Measure as V-as-Measure};
ghost use Rattle.units.specs.Steps.{head_of};
ghost use Rattle.wellformed.specs.Fairness.{FairReference, FairState};
ghost use Rattle.state.specs.Desks.{Roomy, Stays, with_book, with_index, with_hand, with_definition};
ghost use Rattle.state.specs.Keeping.{Kept, KeptIn, KeptOver, Answered, AnsweredOver, Comes, verdict, Small};
ghost use Rattle.state.specs.Next.{opened_by, declared_by};
ghost use Rattle.classes.specs.Classes.{kind_of, head_definition, head_bytes, RuledTo13, Heads, HeadRuled};

use book::kinds;
use ground::{Ruling, sorts};
use members::Held;
use names::NewDefinition;
use state::State;
use state::desk::Desk;
use units::Head;

// The kind of its record, by the number of its sort.
fn head_kind(sort: usize) -> u8
    ensures { result ≡ kind_of sort }
{
    if sort == sorts::CLASS {
        return kinds::CLASS;
    }
    if sort == sorts::STRUCTURE {
        return kinds::STRUCTURE;
    }
    kinds::UNIT
}

// 9 to 13; the position of the base, 0 for none.
fn ruling_to_13(desk: &Desk, st: State, head: Head) -> Result<usize, Ruling>
    requires inside { Inside desk.now.text.now head.name × Inside desk.now.text.now st.context.model
        × Roomy desk.now st }
    requires base_value { (b : Option G.Reference) × (head.base ≡ optional_of b)
        × AnyIs (FairReference desk.now.text.now) b }
    ensures { IfOk result (λ p. p ≤ st.listing.count)
        × ((s : D.State) (c : Sort) (n : R.Name) (p : List (List ℕ)) (b : Option G.Reference) (o hs : List ℕ)
        → KeptOver desk.now o hs s st → head ≡ head_of c n p b
        → InText desk.now.text.now n → AnyIs (FairReference desk.now.text.now) b → RuledTo13 s c n p b result) }
{
    let place = head.name.offset;
    let taken = desk.is_taken(st, head.name);
    let mixed = state::are_mixed(head.properties);
    if taken {
        return Err(Ruling { number: 9, place });
    }
    let base = desk.extends(st, head.sort, head.base)?;
    if mixed {
        return Err(Ruling { number: 13, place });
    }
    Ok(base)
}

// The record and the row of a class or unit over the base at a position.
fn write_head(desk: &mut Desk, st: State, head: Head, base: usize)
    requires len_bound { (head.name.offset + head.name.len ≤ 65535) × (length desk.old.book.now ≤ 65535) }
    requires head_size_in_bounds { (st.extent.used + head_size ≤ length desk.old.book.now) × Small st
        × Roomy desk.old st }
    requires base_le_count { (base ≤ st.listing.count) × (head.sort ≤ 4) }
    ensures stays { Stays desk.old desk.new }
    ensures only { desk.new ≡ with_index (with_book desk.old desk.new.book.now)
        (splice desk.old.index.now ((st.listing.count + 1) * definition_width)
        (definition_row (head_definition st head base))) }
    ensures book { (t : List ℕ) (ks : List Def) → Known t ks desk.old.index.now st.listing.count
        → desk.new.book.now ≡ splice desk.old.book.now st.extent.used (head_bytes head (entry ks base)) }
{
    let name = head.name;
    let p = head.properties;
    let flags = state::flags(p.is_abstract, p.is_final, false, false);
    let kind = head_kind(head.sort);
    let index = &mut *desk.index;
    let number = state::base_number(index, base);
    let record = book::head_record(kind, name.offset, name.len, flags, number);
    let book = &mut *desk.book;
    ground::put(book, st.extent.used, &record);
    let d = NewDefinition {
        name,
        home: st.context.home,
        number: st.extent.records,
        sort: head.sort,
        flags: usize::from(flags),
        place: st.extent.used,
        base,
        first: st.listing.total,
    };
    desk.enter(st, d);
}

// 9 to 13, and 19; the position of the base, 0 for none.
fn head_ruling(desk: &Desk, st: State, head: Head) -> Result<usize, Ruling>
    requires inside { Inside desk.now.text.now head.name × Inside desk.now.text.now st.context.model
        × (length desk.now.book.now ≤ 65535) × (st.extent.used ≤ length desk.now.book.now) × Roomy desk.now st }
    requires base_value { (b : Option G.Reference) × (head.base ≡ optional_of b)
        × AnyIs (FairReference desk.now.text.now) b }
    ensures { IfOk result (λ p. (p ≤ st.listing.count) × (st.extent.used + head_size ≤ length desk.now.book.now))
        × ((s : D.State) (c : Sort) (n : R.Name) (p : List (List ℕ)) (b : Option G.Reference) (o hs : List ℕ)
        (v : U.Unit) → KeptOver desk.now o hs s st → length desk.now.book.now ≡ length o
        → head ≡ head_of c n p b → InText desk.now.text.now n → AnyIs (FairReference desk.now.text.now) b
        → Heads s c n p b v → HeadRuled s b v o result) }
{
    let base = ruling_to_13(desk, st, head)?;
    if desk.book.len() < st.extent.used + book::HEAD_SIZE {
        return Err(Ruling {
            number: 19,
            place: head.name.offset,
        });
    }
    Ok(base)
}

// The attributes that a class over the base at a position inherits are in hand: how many.
fn inherited(desk: &mut Desk, st: State, base: usize) -> usize
    requires ample { Roomy desk.old st × Hand desk.old.hand.now × (st.context.in_hand ≤ most) }
    requires base_le_count { (base ≤ st.listing.count) × (st.listing.total < 65536) }
    ensures stays { Stays desk.old desk.new }
    ensures only { desk.new ≡ with_hand desk.old desk.new.hand.now }
    ensures value { result ≤ most }
    ensures hand { (s : D.State) (o : List ℕ) (d : Def) → KeptIn desk.old o s st
        → s.open_class ≡ none → d.own ≡ [] → d.inherited ≡ attributes_of (or_no_def (entry (known s.decls) base))
        → Opened (attributes_in s) desk.new.hand.now result d }
{
    let held = Held {
        class: st.context.held,
        count: st.context.in_hand,
    };
    let text = desk.text;
    let index = &mut *desk.index;
    let rows = &mut *desk.rows;
    let hand = &mut *desk.hand;
    members::inherit(
        text,
        index,
        st.listing.count,
        rows,
        st.listing.total,
        base,
        held,
        hand,
    )
}

// A class over the base at a position is open: its record and its row are written, and what it inherits is in hand.
fn open_class(desk: &mut Desk, st: State, head: Head, base: usize) -> State
    requires inside { Inside desk.old.text.now head.name × (length desk.old.text.now ≤ 65535)
        × (length desk.old.book.now ≤ 65535) }
    requires head_size_in_bounds { (st.extent.used + head_size ≤ length desk.old.book.now) × Small st
        × Roomy desk.old st }
    requires hand { Hand desk.old.hand.now × (st.context.in_hand ≤ most) × (base ≤ st.listing.count)
        × (head.sort ≤ 4) }
    ensures stays { Stays desk.old desk.new }
    ensures only { desk.new ≡ with_hand (with_index (with_book desk.old desk.new.book.now) desk.new.index.now)
        desk.new.hand.now }
    ensures value { result ≡ opened_by st result.context.in_hand }
    ensures kept { (s : D.State) (k : Bool) (n : R.Name) (p : List (List ℕ)) (b : Option G.Reference)
        → Kept desk.old s st
        → head ≡ head_of (class_sort k) n p b → InText desk.old.text.now n → s.open_class ≡ none
        → entry (known s.decls) base ≡ resolved s b
        → FairState desk.old.text.now (next_state s (U.class (class_sort k) n p b))
        → Kept desk.new (next_state s (U.class (class_sort k) n p b)) (opened_by st result.context.in_hand) }
{
    let n = inherited(desk, st, base);
    write_head(desk, st, head, base);
    st.opened(n)
}

// The head of a class or structure: 9 to 13 and 19.
pub fn judge_class(desk: &mut Desk, st: State, head: Head) -> Result<State, Ruling>
    requires text_len_bound { (length desk.old.text.now ≤ 65535) × (length desk.old.book.now ≤ 65535) }
    requires ample { Roomy desk.old st × Hand desk.old.hand.now }
    requires comes { (s : D.State) × (k : Bool) × (n : R.Name) × (p : List (List ℕ)) × (b : Option G.Reference)
        × (rs : List ℕ) × Kept desk.old s st
        × Comes desk.old.text.now s (U.class (class_sort k) n p b) (V-as-Class head) rs }
    ensures stays { Stays desk.old desk.new }
    ensures only { desk.new ≡ with_hand (with_index (with_book desk.old desk.new.book.now) desk.new.index.now)
        desk.new.hand.now }
    ensures judged { (s : D.State) (k : Bool) (n : R.Name) (p : List (List ℕ)) (b : Option G.Reference) (rs : List ℕ)
        → Kept desk.old s st → Comes desk.old.text.now s (U.class (class_sort k) n p b) (V-as-Class head) rs
        → Answered desk.new (verdict s (U.class (class_sort k) n p b) desk.old.book.now) result }
{
    let base = head_ruling(desk, st, head)?;
    Ok(open_class(desk, st, head, base))
}

// A unit over the base at a position: its record, its row and its name. It is not counted as a definition.
fn declare_unit(desk: &mut Desk, st: State, head: Head, base: usize) -> State
    requires inside { Inside desk.old.text.now head.name × (length desk.old.text.now ≤ 65535)
        × (length desk.old.book.now ≤ 65535) }
    requires head_size_in_bounds { (st.extent.used + head_size ≤ length desk.old.book.now) × Small st
        × Roomy desk.old st }
    requires base_le_count { (base ≤ st.listing.count) × (head.sort ≤ 4) }
    ensures stays { Stays desk.old desk.new }
    ensures only { desk.new ≡ with_definition desk.old desk.new }
    ensures value { result ≡ declared_by st head_size 1 0 }
    ensures kept { (s : D.State) (n : R.Name) (p : List (List ℕ)) (b : Option G.Reference) (hs : List ℕ)
        → KeptOver desk.old desk.old.book.now hs s st
        → head ≡ head_of D.unit n p b → InText desk.old.text.now n → s.open_class ≡ none
        → entry (known s.decls) base ≡ resolved s b
        → FairState desk.old.text.now (next_state s (U.unit n p b))
        → KeptOver desk.new desk.new.book.now hs (next_state s (U.unit n p b)) (declared_by st head_size 1 0) }
{
    write_head(desk, st, head, base);
    desk.make_known(st, head.name);
    st.declared(book::HEAD_SIZE, 1, 0)
}

// A unit: 9 to 13 and 19.
pub fn judge_unit(desk: &mut Desk, st: State, head: Head) -> Result<State, Ruling>
    requires text_len_bound { (length desk.old.text.now ≤ 65535) × (length desk.old.book.now ≤ 65535)
        × Roomy desk.old st }
    requires comes { (s : D.State) × (n : R.Name) × (p : List (List ℕ)) × (b : Option G.Reference) × (hs : List ℕ)
        × (rs : List ℕ) × KeptOver desk.old desk.old.book.now hs s st
        × Comes desk.old.text.now s (U.unit n p b) (V-as-Measure head) rs }
    ensures stays { Stays desk.old desk.new }
    ensures only { desk.new ≡ with_definition desk.old desk.new }
    ensures judged { (s : D.State) (n : R.Name) (p : List (List ℕ)) (b : Option G.Reference) (hs rs : List ℕ)
        → KeptOver desk.old desk.old.book.now hs s st
        → Comes desk.old.text.now s (U.unit n p b) (V-as-Measure head) rs
        → AnsweredOver desk.new hs (verdict s (U.unit n p b) desk.old.book.now) result }
{
    let base = head_ruling(desk, st, head)?;
    Ok(declare_unit(desk, st, head, base))
}
