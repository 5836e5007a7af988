// What a text has declared so far, beside the book and the index; and what the rules of several units share.
#![tactic(auto)]

pub mod desk;

ghost use Rattle.std.specs.Prelude.{◌≡◌, false, ◌&&◌, ◌||◌, List, ℕ, ◌+◌, ◌*◌, ◌≤◌, ◌<◌, length, replicate, IfOk};
ghost use Rattle.std.proofs.Math.Option.{Option, none, some};
ghost use Rattle.rules.specs.Grammar as G;
ghost use Rattle.rules.specs.Grammar.{WrittenType};
ghost use Rattle.rules.specs.Declarations as D;
ghost use Rattle.rules.specs.Declarations.{Def, Sort, sort_number, is_found, at_hand, resolve, known};
ghost use Rattle.rules.specs.Book.{base_number};
ghost use Rattle.rules.specs.Book.{flags as Book·flags};
ghost use Rattle.rules.specs.Judge.{first_place, has_twice, has_abstract, has_final, resolved, bases_of, may_extend};
ghost use Rattle.rules.specs.Judge.{extends_rules, reference_in, may_stand_in};
ghost use Rattle.names.specs.Index.{entry, Known, Rows};
ghost use Rattle.names.specs.References.{bytes_of, Inside, AllInside};
ghost use Rattle.parts.specs.Forms.{flags_of, reference_of, optional_of, any_of};
ghost use Rattle.rules.specs.All.{AnyIs};
ghost use Rattle.wellformed.specs.Fairness.{FairReference};
ghost use Rattle.ground.specs.Rulings.{ruling_of};
ghost use Rattle.rules.specs.Check.{nothing as Check·nothing};
ghost use Rattle.state.specs.Keeping.{Keeps};
ghost use Rattle.book.specs.Sizes.{model_size, head_size, class_end_size};
ghost use Rattle.state.specs.Targets.{target_rules, earlier_of};
ghost use Rattle.state.specs.Next.{longer as Next·longer, one_definition, one_attribute, holding as Next·holding};
ghost use Rattle.state.specs.Next.{grown_by, begun_by, declared_by, in_topic_by, opened_by, member_by, closed_by};

use ground::{Name, Reference, Ruling, sorts};
use parts::Properties;
use parts::types::Meant;

// How many bytes of the book are written, of how many records and definitions.
#[derive(Clone, Copy)]
pub struct Extent {
    pub used: usize,
    pub records: usize,
    pub definitions: usize,
}

// How many definitions the index has, and attributes.
#[derive(Clone, Copy)]
pub struct Listing {
    pub count: usize,
    pub total: usize,
}

// The model's name; the open topic's name, and 0 or one more than its record number; how many classes are open, 0 or 1;
// how many attributes are in hand, and whose they are while no class is open, 0 for none's.
#[derive(Clone, Copy)]
pub struct Context {
    pub model: Name,
    pub topic: Name,
    pub home: usize,
    pub open: usize,
    pub in_hand: usize,
    pub held: usize,
}

#[derive(Clone, Copy)]
pub struct State {
    pub extent: Extent,
    pub listing: Listing,
    pub context: Context,
}

// Before the header.
pub fn nothing() -> State
    ensures { (result.listing ≡ record { count = 0; total = 0 })
        × ((t o x y hs : List ℕ) (n : ℕ) → Keeps t Check·nothing result o x (replicate n 0) y hs) }
{
    let extent = Extent {
        used: 0,
        records: 0,
        definitions: 0,
    };
    let listing = Listing { count: 0, total: 0 };
    let no_name = Name { offset: 0, len: 0 };
    let context = Context {
        model: no_name,
        topic: no_name,
        home: 0,
        open: 0,
        in_hand: 0,
        held: 0,
    };
    State {
        extent,
        listing,
        context,
    }
}

impl Extent {
    // So many bytes, records and definitions more.
    fn longer(self, bytes: usize, records: usize, definitions: usize) -> Extent
        requires { (self.used + bytes ≤ 65535) × (self.records + records ≤ 65535)
            × (self.definitions + definitions ≤ 65535) }
        ensures { result ≡ Next·longer self bytes records definitions }
    {
        Extent {
            used: self.used + bytes,
            records: self.records + records,
            definitions: self.definitions + definitions,
        }
    }
}

impl Listing {
    // A definition more.
    fn with_definition(self) -> Listing
        requires { self.count ≤ 65535 }
        ensures { result ≡ one_definition self }
    {
        Listing {
            count: self.count + 1,
            ..self
        }
    }

    // An attribute more.
    fn with_attribute(self) -> Listing
        requires { self.total ≤ 65535 }
        ensures { result ≡ one_attribute self }
    {
        Listing {
            total: self.total + 1,
            ..self
        }
    }
}

impl Context {
    fn holding(self, open: usize, in_hand: usize, held: usize) -> Context
        ensures { result ≡ Next·holding self «open» in_hand held }
    {
        Context {
            open,
            in_hand,
            held,
            ..self
        }
    }
}

impl State {
    // So many bytes, records and definitions of the book more.
    pub fn grown(self, bytes: usize, records: usize, definitions: usize) -> State
        requires { (self.extent.used + bytes ≤ 65535) × (self.extent.records + records ≤ 65535)
            × (self.extent.definitions + definitions ≤ 65535) }
        ensures { result ≡ grown_by self bytes records definitions }
    {
        State {
            extent: self.extent.longer(bytes, records, definitions),
            ..self
        }
    }

    // With the model.
    pub fn begun(self, name: Name) -> State
        requires { (self.extent.used + model_size ≤ 65535) × (self.extent.records + 1 ≤ 65535)
            × (self.extent.definitions ≤ 65535) }
        ensures { result ≡ begun_by self name }
    {
        State {
            extent: self.extent.longer(book::MODEL_SIZE, 1, 0),
            context: Context {
                model: name,
                ..self.context
            },
            ..self
        }
    }

    // With a topic, a domain or a unit.
    pub fn declared(self, bytes: usize, records: usize, definitions: usize) -> State
        requires bytes_bound { (self.extent.used + bytes ≤ 65535) × (self.extent.records + records ≤ 65535)
            × (self.extent.definitions + definitions ≤ 65535) }
        requires count_bound { self.listing.count ≤ 65535 }
        ensures { result ≡ declared_by self bytes records definitions }
    {
        State {
            extent: self.extent.longer(bytes, records, definitions),
            listing: self.listing.with_definition(),
            ..self
        }
    }

    // In a topic, by its number as a home; 0 for none.
    pub fn in_topic(self, name: Name, home: usize) -> State
        ensures { result ≡ in_topic_by self name home }
    {
        State {
            context: Context {
                topic: name,
                home,
                ..self.context
            },
            ..self
        }
    }

    // In a class that has so many attributes.
    pub fn opened(self, in_hand: usize) -> State
        requires { (self.extent.used + head_size ≤ 65535) × (self.extent.records + 1 ≤ 65535)
            × (self.extent.definitions + 1 ≤ 65535) }
        ensures { result ≡ opened_by self in_hand }
    {
        State {
            extent: self.extent.longer(book::HEAD_SIZE, 1, 1),
            context: self.context.holding(1, in_hand, self.context.held),
            ..self
        }
    }

    // With an attribute of the open class, which then has so many.
    pub fn with_member(self, bytes: usize, records: usize, in_hand: usize) -> State
        requires bytes_bound { (self.extent.used + bytes ≤ 65535) × (self.extent.records + records ≤ 65535)
            × (self.extent.definitions + 1 ≤ 65535) }
        requires total_bound { self.listing.total ≤ 65535 }
        ensures { result ≡ member_by self bytes records in_hand }
    {
        let before = self.context;
        State {
            extent: self.extent.longer(bytes, records, 1),
            listing: self.listing.with_attribute(),
            context: before.holding(before.open, in_hand, before.held),
        }
    }

    // After the END of the open class.
    pub fn closed(self) -> State
        requires class_end_size_bound { (self.extent.used + class_end_size ≤ 65535) × (self.extent.records + 1 ≤ 65535)
            × (self.extent.definitions ≤ 65535) }
        requires count_bound { self.listing.count ≤ 65535 }
        ensures { result ≡ closed_by self }
    {
        let listing = self.listing.with_definition();
        State {
            extent: self.extent.longer(book::CLASS_END_SIZE, 1, 0),
            listing,
            context: self.context.holding(0, self.context.in_hand, listing.count),
        }
    }
}

// Where a reference begins.
pub fn first_place(r: Reference) -> usize
    ensures { (b : G.Reference) → r ≡ reference_of b → result ≡ first_place b }
{
    match r {
        Reference::Bare(n) => n.offset,
        Reference::InModel(m, n) => m.offset,
        Reference::InTopic(m, t, n) => m.offset,
    }
}

// By the numbers of their sorts: each its own, and a class a structure.
fn may_extend(sort: usize, base: usize) -> bool
    ensures { (c b : Sort) → sort ≡ sort_number c → base ≡ sort_number b → result ≡ may_extend c b }
{
    base == sort || (sort == sorts::CLASS && base == sorts::STRUCTURE)
}

// 10 to 12 of what extends, by the number of its sort, and of what its reference at a place names.
fn extends_ruling(index: &[u16], sort: usize, base: usize, place: usize) -> Result<(), Ruling>
    requires { Rows index.now base }
    ensures { (t : List ℕ) (ks : List Def) (count : ℕ) (c : Sort) (b : G.Reference) → base ≤ count
        → Known t ks index.now count → sort ≡ sort_number c → place ≡ first_place b
        → result ≡ ruling_of (extends_rules c (some b) (entry ks base)) }
{
    if base == 0 {
        return Err(Ruling { number: 10, place });
    }
    if !may_extend(sort, names::sort_of(index, base)) {
        return Err(Ruling { number: 11, place });
    }
    if names::is_final(names::flags_of(index, base)) {
        return Err(Ruling { number: 12, place });
    }
    Ok(())
}

// By the number of its sort: a domain or a structure in place of a type, a unit on a number.
fn may_stand_in(m: Meant, sort: usize) -> bool
    ensures { (w : Option WrittenType) (d : Sort) → m ≡ any_of w → sort ≡ sort_number d
        → result ≡ may_stand_in w d }
{
    match m {
        Meant::Named => sort == sorts::DOMAIN || sort == sorts::STRUCTURE,
        _ => sort == sorts::UNIT,
    }
}

// 10 and 11 of the reference in a type, which leads to the definition at a position.
pub fn target_ruling(
    index: &[u16],
    m: Meant,
    reference: Option<Reference>,
    target: usize,
) -> Result<(), Ruling>
    requires { Rows index.now target }
    ensures { (t : List ℕ) (ks : List Def) (count : ℕ) (w : Option WrittenType)
        → Known t ks index.now count → target ≤ count
        → m ≡ any_of w → reference ≡ optional_of (reference_in w) → (reference_in w ≡ none → entry ks target ≡ none)
        → result ≡ ruling_of (target_rules w (entry ks target)) }
{
    if let Some(r) = reference {
        let place = first_place(r);
        if target == 0 {
            return Err(Ruling { number: 10, place });
        }
        if !may_stand_in(m, names::sort_of(index, target)) {
            return Err(Ruling { number: 11, place });
        }
    }
    Ok(())
}

// Of two rulings the one with the lesser number, the first where they are alike; the value where neither is broken.
pub fn earlier(a: Result<usize, Ruling>, b: Result<(), Ruling>) -> Result<usize, Ruling>
    ensures { result ≡ earlier_of a b }
{
    match (a, b) {
        (Err(x), Err(y)) if y.number < x.number => Err(y),
        (Ok(_), Err(y)) => Err(y),
        _ => a,
    }
}

// 13: a property twice, or ABSTRACT with FINAL.
pub fn are_mixed(p: Properties) -> bool
    ensures { (l : List (List ℕ)) → p ≡ flags_of l → result ≡ (has_twice l || (has_abstract l && has_final l)) }
{
    p.twice || (p.is_abstract && p.is_final)
}

pub fn flags(is_abstract: bool, is_final: bool, extended: bool, mandatory: bool) -> u8
    ensures { (result ≡ Book·flags is_abstract is_final extended mandatory) × (result < 16) }
{
    u8::from(is_abstract) * book::flags::ABSTRACT
        + u8::from(is_final) * book::flags::FINAL
        + u8::from(extended) * book::flags::EXTENDED
        + u8::from(mandatory) * book::flags::MANDATORY
}

// What stands in the book for no base.
pub const NO_BASE: usize = 4294967295;

// The record number of the base at a position, as the book writes it.
pub fn base_number(index: &[u16], base: usize) -> usize
    requires { Rows index.now base }
    ensures { (t : List ℕ) (ks : List Def) (count : ℕ) → base ≤ count → Known t ks index.now count
        → result ≡ base_number (bases_of (entry ks base)) }
{
    if base == 0 {
        return NO_BASE;
    }
    names::number_of(index, base)
}
