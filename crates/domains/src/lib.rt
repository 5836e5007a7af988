// Judging a domain: 9 to 17, 22 and 19, and its records.
#![tactic(auto)]

ghost use Rattle.std.specs.Prelude.{◌≡◌, not, ◌&&◌, ◌||◌, List, [], ◌∷◌, ◌++◌, ℕ, ◌+◌, ◌*◌, ◌≤◌, ◌<◌, length, take};
ghost use Rattle.std.specs.Prelude.{IfOk};
ghost use Rattle.std.proofs.Math.Option.{Option, some};
ghost use Rattle.rules.specs.Names as R;
ghost use Rattle.rules.specs.Grammar as G;
ghost use Rattle.rules.specs.Units as U;
ghost use Rattle.rules.specs.Types.{Ty};
ghost use Rattle.rules.specs.Declarations as D;
ghost use Rattle.rules.specs.Declarations.{Def, Attribute, domain};
ghost use Rattle.rules.specs.Judge.{ok, or_no_def, has_twice, has_abstract, has_final, is_numeric, resolved, target_in};
ghost use Rattle.rules.specs.Check.{lent, room};
ghost use Rattle.ground.specs.Parts.{splice};
ghost use Rattle.names.specs.Index.{entry, Known, Rows, definition_width};
ghost use Rattle.names.specs.References.{bytes_of, Inside};
ghost use Rattle.names.specs.Chains.{Chains};
ghost use Rattle.names.specs.Rows.{definition_row};
ghost use Rattle.members.specs.Held.{Held};
ghost use Rattle.readers.specs.Reads.{name_cut};
ghost use Rattle.parts.specs.Forms.{any_of, flags_of};
ghost use Rattle.units.specs.declared.Unit.TheVariants.{Domain as V-as-Domain};
ghost use Rattle.wellformed.specs.Fairness.{Fair, FairState};
ghost use Rattle.enumerations.specs.Standing.{InText};
ghost use Rattle.ground.specs.Rulings.{ruling_of};
ghost use Rattle.fitting.specs.Values.{Valued, Typed, UnitNumbered};
ghost use Rattle.types.specs.Writing.{Scratched};
ghost use Rattle.state.specs.Keeping.{Comes, verdict, KeptOver, AnsweredOver};
ghost use Rattle.state.specs.Targets.{among_rules, Ruled};
ghost use Rattle.domains.specs.Stages.{name_rules, Leads, ExtendingIn, OverIs, domain_definition};
ghost use Rattle.domains.specs.Stages.{SomeSized, SomeExtending, records_of, declared_in};
ghost use Rattle.domains.specs.Stages.{LaidBehind, from_rule_13};
ghost use Rattle.state.specs.Desks.{Loan, Roomy, Stays, with_index, with_chains, with_tables, with_definition};
ghost use Rattle.tables.specs.Tables.{TableFor};

use enumerations::Size;
use fitting::Typing;
use ground::{Name, Ruling, sorts};
use names::NewDefinition;
use parts::Properties;
use parts::types::Meant;
use state::State;
use state::desk::Desk;
use types::Over;
use units::DomainUnit;

// The positions of what EXTENDS and the type's reference lead to, each 0 for nothing.
#[derive(Clone, Copy)]
struct Reached {
    pub base: usize,
    pub target: usize,
}

// 9 of the name and of the elements.
fn name_ruling(desk: &mut Desk, st: State, name: Name, m: Meant) -> Result<(), Ruling>
    requires inside { Inside desk.old.text.now name × Roomy desk.old st }
    requires scratch_len_bound { (length desk.old.scratch.now ≤ 262144)
        × TableFor (length desk.old.scratch.now) (length desk.old.tables.now) }
    ensures stays { Stays desk.old desk.new }
    ensures only { desk.new ≡ with_tables desk.old desk.new.tables.now }
    ensures value { (s : D.State) (n : R.Name) (w : Option G.WrittenType) (o hs : List ℕ)
        → KeptOver desk.old o hs s st → name ≡ name_cut n → InText desk.old.text.now n
        → m ≡ any_of w → Scratched desk.old.text.now desk.old.scratch.now w
        → result ≡ ruling_of (name_rules s n w) }
{
    if desk.is_taken(st, name) {
        return Err(Ruling {
            number: 9,
            place: name.offset,
        });
    }
    let text = desk.text;
    let scratch = &mut *desk.scratch;
    let tables = &mut *desk.tables;
    types::element_ruling(text, scratch, m, tables)
}

// 10 to 12 of both references.
fn reach(desk: &Desk, st: State, d: DomainUnit) -> Result<Reached, Ruling>
    requires inside { Inside desk.now.text.now st.context.model × Roomy desk.now st }
    requires comes { (s : D.State) × (n : R.Name) × (p : List (List ℕ)) × (b : Option G.Reference) × (w : G.Written)
        × (rs : List ℕ) × Comes desk.now.text.now s (U.domain n p b w) (V-as-Domain d) rs }
    ensures { IfOk result (λ e. (e.base ≤ st.listing.count) × (e.target ≤ st.listing.count))
        × ((s : D.State) (n : R.Name) (p : List (List ℕ)) (b : Option G.Reference) (w : G.Written) (o hs rs : List ℕ)
        → KeptOver desk.now o hs s st → Comes desk.now.text.now s (U.domain n p b w) (V-as-Domain d) rs
        → Ruled result (among_rules domain b (resolved s b) w.type (target_in s w)) (Leads s b w)) }
{
    let extended = desk.extends(st, sorts::DOMAIN, d.base);
    let w = d.written;
    let target = desk.target(st, w.reference);
    let of_type = state::target_ruling(desk.index, w.meant, w.reference, target);
    let base = state::earlier(extended, of_type)?;
    Ok(Reached { base, target })
}

// The type of the domain at a position; a structure where there is none.
fn base_type(desk: &Desk, used: usize, base: usize) -> Typing
    requires { (used ≤ length desk.now.book.now) × (length desk.now.book.now ≤ 65535) × Rows desk.now.index.now base }
    ensures { (t : List ℕ) (ks : List Def) (ms : List Attribute) (count : ℕ) (y : List ℕ) (total : ℕ)
        → base ≤ count → Held t (take used desk.now.book.now) ks ms desk.now.index.now count y total
        → ((d : Def) → entry ks base ≡ some d → (d.sort ≡ domain) × Fair t d.type × UnitNumbered d.type)
        → Typed t (take used desk.now.book.now) (or_no_def (entry ks base)).type result }
{
    if base == 0 {
        return Typing::Structure;
    }
    fitting::type_behind(&desk.book[..used], names::place_of(desk.index, base))
}

// The type that is written over the base's.
fn over_base(desk: &Desk, st: State, m: Meant, e: Reached) -> Over
    requires { (st.extent.used ≤ length desk.now.book.now) × (length desk.now.book.now ≤ 65535) × Roomy desk.now st
        × (e.base ≤ st.listing.count) × (e.target ≤ st.listing.count) }
    ensures { (s : D.State) (n : R.Name) (p : List (List ℕ)) (b : Option G.Reference) (w : G.Written)
        (hs rs : List ℕ) (d : DomainUnit) → m ≡ d.written.meant
        → ExtendingIn desk.now desk.now.book.now hs rs s st n p b w d e
        → OverIs desk.now.text.now (take st.extent.used desk.now.book.now) w.type (resolved s b) (target_in s w)
        result }
{
    let base = base_type(desk, st.extent.used, e.base);
    let own = types::meant(m, base, fitting::unit_number(desk.index, e.target));
    let keeps = types::keeps_unit(desk.index, st.listing.count, m, e.target, base);
    Over {
        based: 0 < e.base,
        own,
        base,
        keeps,
    }
}

// 13; NUMERIC is for ABSTRACT domains.
fn is_bad_head(p: Properties, own: Typing) -> bool
    ensures { (l : List (List ℕ)) (x : Ty) → p ≡ flags_of l → Valued x own
        → result ≡ (has_twice l || ((has_abstract l && has_final l) || (is_numeric x && not (has_abstract l)))) }
{
    state::are_mixed(p) || (fitting::is_numeric(own) && !p.is_abstract)
}

// MANDATORY holds if written, or if the base has it.
fn is_mandatory(index: &[u16], base: usize, written: bool) -> bool
    requires { Rows index.now base }
    ensures { (t : List ℕ) (ks : List Def) (count : ℕ) → base ≤ count → Known t ks index.now count
        → result ≡ (written || (or_no_def (entry ks base)).mandatory) }
{
    written || (base != 0 && names::is_mandatory(names::flags_of(index, base)))
}

// Its row behind the last, and its name.
fn enter_domain(desk: &mut Desk, st: State, name: Name, flags: u8, base: usize)
    requires inside { Inside desk.old.text.now name × (length desk.old.text.now ≤ 65535) × Roomy desk.old st }
    requires home_bound { (st.context.home ≤ 65535) × (st.extent.records ≤ 65535) × (st.extent.used ≤ 65535)
        × (st.listing.count < 65535) × (st.listing.total ≤ 65535) × (base ≤ st.listing.count) }
    ensures stays { Stays desk.old desk.new }
    ensures only { desk.new ≡ with_chains (with_index desk.old (splice desk.old.index.now
        ((st.listing.count + 1) * definition_width) (definition_row (domain_definition st name flags base))))
        desk.new.chains.now }
    ensures chains { (ks : List Def) (d : Def) → Chains ks desk.old.chains.now
        → st.listing.count ≡ length ks → bytes_of desk.old.text.now name ≡ d.name.bytes
        → Chains (ks ++ (d ∷ [])) desk.new.chains.now }
{
    let row = NewDefinition {
        name,
        home: st.context.home,
        number: st.extent.records,
        sort: sorts::DOMAIN,
        flags: usize::from(flags),
        place: st.extent.used,
        base,
        first: st.listing.total,
    };
    desk.declare(st, row);
}

// 19, and the domain's records, its row and its name. Its type's records stand behind room for its head.
fn add_domain(
    desk: &mut Desk,
    st: State,
    d: DomainUnit,
    e: Reached,
    size: Size,
) -> Result<State, Ruling>
    requires text_len_bound { (length desk.old.text.now ≤ 65535) × (length desk.old.book.now ≤ 65535)
        × (e.base ≤ st.listing.count) }
    requires ample { Roomy desk.old st }
    requires some_sized { SomeSized desk.old st d e size }
    ensures stays { Stays desk.old desk.new }
    ensures only { desk.new ≡ with_definition desk.old desk.new }
    ensures judged { (s : D.State) (n : R.Name) (p : List (List ℕ)) (b : Option G.Reference) (w : G.Written)
        (o hs rs : List ℕ) → ExtendingIn desk.old o hs rs s st n p b w d e
        → length o ≡ length desk.old.book.now → LaidBehind (records_of s b w) st o desk.old.book.now size
        → FairState desk.old.text.now (declared_in s n p b w)
        → AnsweredOver desk.new hs (room (lent (length o)) n.offset (ok (declared_in s n p b w))) result }
{
    let name = d.name;
    if !written::has_room(desk.book.len(), st.extent.used, size.bytes) {
        return Err(Ruling {
            number: 19,
            place: name.offset,
        });
    }
    let p = d.properties;
    let index = &mut *desk.index;
    let mandatory = is_mandatory(index, e.base, d.written.mandatory);
    let of_base = state::base_number(index, e.base);
    let flags = state::flags(p.is_abstract, p.is_final, false, mandatory);
    let head = book::head_record(book::kinds::DOMAIN, name.offset, name.len, flags, of_base);
    let book = &mut *desk.book;
    ground::put(book, st.extent.used, &head);
    enter_domain(desk, st, name, flags, e.base);
    Ok(st.declared(book::HEAD_SIZE + size.bytes, 1 + size.records, 1))
}

// 13 to 17, 22 and 19.
fn typed_domain(desk: &mut Desk, st: State, d: DomainUnit, e: Reached) -> Result<State, Ruling>
    requires loan { Loan desk.old }
    requires ample { Roomy desk.old st × (e.base ≤ st.listing.count) × (e.target ≤ st.listing.count) }
    requires some_extending { SomeExtending desk.old st d e }
    ensures stays { Stays desk.old desk.new }
    ensures only { desk.new ≡ with_tables (with_definition desk.old desk.new) desk.new.tables.now }
    ensures judged { (s : D.State) (n : R.Name) (p : List (List ℕ)) (b : Option G.Reference) (w : G.Written)
        (hs : List ℕ) → ExtendingIn desk.old desk.old.book.now hs desk.old.scratch.now s st n p b w d e
        → AnsweredOver desk.new hs (room (lent (length desk.old.book.now)) n.offset (from_rule_13 s n p b w)) result }
{
    let over = over_base(desk, st, d.written.meant, e);
    if is_bad_head(d.properties, over.own) {
        return Err(Ruling {
            number: 13,
            place: d.name.offset,
        });
    }
    let text = desk.text;
    let used = st.extent.used;
    let book = &mut *desk.book;
    let scratch = &mut *desk.scratch;
    let tables = &mut *desk.tables;
    let size = written::lay_written(text, book, used, scratch, d.written, over, tables)?;
    add_domain(desk, st, d, e, size)
}

// A domain.
pub fn judge_domain(desk: &mut Desk, st: State, d: DomainUnit) -> Result<State, Ruling>
    requires loan { Loan desk.old }
    requires ample { Roomy desk.old st }
    requires comes { (s : D.State) × (n : R.Name) × (p : List (List ℕ)) × (b : Option G.Reference) × (w : G.Written)
        × (hs : List ℕ) × KeptOver desk.old desk.old.book.now hs s st
        × Comes desk.old.text.now s (U.domain n p b w) (V-as-Domain d) desk.old.scratch.now }
    ensures stays { Stays desk.old desk.new }
    ensures only { desk.new ≡ with_tables (with_definition desk.old desk.new) desk.new.tables.now }
    ensures judged { (s : D.State) (n : R.Name) (p : List (List ℕ)) (b : Option G.Reference) (w : G.Written)
        (hs : List ℕ) → KeptOver desk.old desk.old.book.now hs s st
        → Comes desk.old.text.now s (U.domain n p b w) (V-as-Domain d) desk.old.scratch.now
        → AnsweredOver desk.new hs (verdict s (U.domain n p b w) desk.old.book.now) result }
{
    name_ruling(desk, st, d.name, d.written.meant)?;
    let e = reach(desk, st, d)?;
    typed_domain(desk, st, d, e)
}
