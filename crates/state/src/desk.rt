// What is lent for a check, and what is looked up and entered there.
ghost use Rattle.std.specs.Prelude.{◌≡◌, List, [], ◌∷◌, ◌++◌, ℕ, ◌+◌, ◌*◌, ◌≤◌, ◌<◌, length, IfOk};
ghost use Rattle.std.proofs.Math.Option.{Option};
ghost use Rattle.rules.specs.Grammar as G;
ghost use Rattle.rules.specs.Declarations as D;
ghost use Rattle.rules.specs.Declarations.{Def, Sort, sort_number, is_found, at_hand, resolve, known};
ghost use Rattle.rules.specs.Judge.{resolved, extends_rules};
ghost use Rattle.rules.specs.All.{AnyIs};
ghost use Rattle.names.specs.Chains.{Chains};
ghost use Rattle.names.specs.Index.{entry};
ghost use Rattle.names.specs.References.{bytes_of, Inside, AllInside};
ghost use Rattle.names.specs.Rows.{Narrow};
ghost use Rattle.members.specs.Rows.{Narrow as NarrowMember};
ghost use Rattle.parts.specs.Forms.{reference_of, optional_of};
ghost use Rattle.wellformed.specs.Fairness.{FairReference};
ghost use Rattle.state.specs.Keeping.{KeptOver};
ghost use Rattle.state.specs.Desks.{Roomy, Stays, with_index, with_rows, with_chains};
ghost use Rattle.state.specs.Desks.{with_row, with_last, with_attribute_row};
ghost use Rattle.state.specs.Targets.{Ruled};

use crate::{State, extends_ruling, first_place};
use ground::{Name, Reference, Ruling};
use members::NewAttribute;
use names::NewDefinition;

// The text; the buffer for its book; the index of definitions, the rows of attributes and the chains of names; the
// attributes of the open class; the records of the enumeration that is written; the tables of elements.
#[derive(Drop)]
pub struct Desk<'a> {
    pub text: &'a [u8],
    pub book: &'a mut [u8],
    pub index: &'a mut [u16],
    pub rows: &'a mut [u16],
    pub chains: &'a mut [u16],
    pub hand: &'a mut [u32],
    pub scratch: &'a mut [u8],
    pub tables: &'a mut [u32],
}

impl<'a> Desk<'a> {
    // ---- looking up
    // Whether a new name is taken, by the listing and the home of a state.
    pub fn is_taken(&self, st: State, name: Name) -> bool
        requires { Inside self.now.text.now name × Roomy self.now st }
        ensures { (s : D.State) (t : State) (o hs : List ℕ) → t.listing ≡ st.listing
            → t.context.home ≡ st.context.home → KeptOver self.now o hs s t
            → result ≡ is_found (at_hand s (bytes_of self.now.text.now name)) }
    {
        let count = st.listing.count;
        let home = st.context.home;
        0 < names::find_bare(self.text, self.index, self.chains, count, home, name)
    }

    // What a reference names: its position, 0 for nothing.
    pub fn named(&self, st: State, r: Reference) -> usize
        requires { Inside self.now.text.now st.context.model × AllInside self.now.text.now r × Roomy self.now st }
        ensures { (result ≤ st.listing.count)
            × ((s : D.State) (b : G.Reference) (o hs : List ℕ) → KeptOver self.now o hs s st
            → r ≡ reference_of b → FairReference self.now.text.now b → entry (known s.decls) result ≡ resolve s b) }
    {
        let model = st.context.model;
        let count = st.listing.count;
        let home = st.context.home;
        names::resolve(self.text, self.index, self.chains, count, model, home, r)
    }

    // 10 to 12 of what extends, by the number of its sort; the position of its base, 0 for none.
    pub fn extends(&self, st: State, sort: usize, base: Option<Reference>) -> Result<usize, Ruling>
        requires inside { Inside self.now.text.now st.context.model × Roomy self.now st }
        requires base_value { (b : Option G.Reference) × (base ≡ optional_of b)
            × AnyIs (FairReference self.now.text.now) b }
        ensures { IfOk result (λ p. p ≤ st.listing.count)
            × ((s : D.State) (c : Sort) (b : Option G.Reference) (o hs : List ℕ) → KeptOver self.now o hs s st
            → sort ≡ sort_number c → base ≡ optional_of b → AnyIs (FairReference self.now.text.now) b
            → Ruled result (extends_rules c b (resolved s b)) (λ p. entry (known s.decls) p ≡ resolved s b)) }
    {
        match base {
            None => Ok(0),
            Some(r) => {
                let p = self.named(st, r);
                extends_ruling(self.index, sort, p, first_place(r))?;
                Ok(p)
            }
        }
    }

    // What the reference that stands in a type leads to: its position, 0 for nothing.
    pub fn target(&self, st: State, reference: Option<Reference>) -> usize
        requires inside { Inside self.now.text.now st.context.model × Roomy self.now st }
        requires reference_value { (b : Option G.Reference) × (reference ≡ optional_of b)
            × AnyIs (FairReference self.now.text.now) b }
        ensures { (result ≤ st.listing.count)
            × ((s : D.State) (b : Option G.Reference) (o hs : List ℕ) → KeptOver self.now o hs s st
            → reference ≡ optional_of b → AnyIs (FairReference self.now.text.now) b
            → entry (known s.decls) result ≡ resolved s b) }
    {
        match reference {
            None => 0,
            Some(r) => self.named(st, r),
        }
    }

    // ---- entering
    // The row of a new definition, behind the last.
    pub fn enter(&mut self, st: State, d: NewDefinition)
        requires { Roomy self.old st × Narrow d }
        ensures stays { Stays self.old self.new }
        ensures only { self.new ≡ with_index self.old (with_row st self.old.index.now d) }
    {
        let index = &mut *self.index;
        names::enter(index, st.listing.count + 1, d);
    }

    // The new definition's name is found from now on.
    pub fn make_known(&mut self, st: State, name: Name)
        requires { Roomy self.old st × Inside self.old.text.now name × (st.listing.count < 65535) }
        ensures stays { Stays self.old self.new }
        ensures only { self.new ≡ with_chains self.old self.new.chains.now }
        ensures chains { (ks : List Def) (d : Def) → Chains ks self.old.chains.now
            → st.listing.count ≡ length ks → bytes_of self.old.text.now name ≡ d.name.bytes
            → Chains (ks ++ (d ∷ [])) self.new.chains.now }
    {
        let key = names::key_of(self.text, name);
        let chains = &mut *self.chains;
        names::make_known(chains, st.listing.count + 1, key);
    }

    // A new definition, a topic, a domain or a unit: its row behind the last, and its name, which is found from now on.
    pub fn declare(&mut self, st: State, d: NewDefinition)
        requires { Roomy self.old st × Narrow d × Inside self.old.text.now d.name × (st.listing.count < 65535) }
        ensures stays { Stays self.old self.new }
        ensures only { self.new
            ≡ with_chains (with_index self.old (with_row st self.old.index.now d)) self.new.chains.now }
        ensures chains { (ks : List Def) (e : Def) → Chains ks self.old.chains.now
            → st.listing.count ≡ length ks → bytes_of self.old.text.now d.name ≡ e.name.bytes
            → Chains (ks ++ (e ∷ [])) self.new.chains.now }
    {
        self.enter(st, d);
        self.make_known(st, d.name);
    }

    // The open class ends with the last attribute.
    pub fn close(&mut self, st: State)
        requires { Roomy self.old st × (st.listing.total < 65536) }
        ensures stays { Stays self.old self.new }
        ensures only { self.new ≡ with_index self.old (with_last st self.old.index.now) }
    {
        let index = &mut *self.index;
        names::close(index, st.listing.count + 1, st.listing.total);
    }

    // The row of a new attribute, behind the last.
    pub fn enter_attribute(&mut self, st: State, a: NewAttribute)
        requires { Roomy self.old st × NarrowMember a }
        ensures stays { Stays self.old self.new }
        ensures only { self.new ≡ with_rows self.old (with_attribute_row st self.old.rows.now a) }
    {
        let rows = &mut *self.rows;
        members::enter_member(rows, st.listing.total + 1, a);
    }
}
