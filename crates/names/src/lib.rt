// What is known: an index of the definitions in lent numbers, and names looked up in it.
#![tactic(auto)]

ghost use Rattle.std.specs.Prelude.{◌≡◌, Bool, false, ◌||◌, List, [], ◌∷◌, ◌++◌, ℕ, ◌+◌, ◌*◌, ◌≤◌, ◌<◌, length, get_or};
ghost use Rattle.std.specs.Prelude.{set, eqb};
ghost use Rattle.std.proofs.Math.Option.{none};
ghost use Rattle.rules.specs.Bytes.{same};
ghost use Rattle.rules.specs.Declarations as D;
ghost use Rattle.rules.specs.Declarations.{Def, State, known, lookup, number_in, at_home, at_hand, in_topic_of};
ghost use Rattle.rules.specs.Declarations.{sort_number};
ghost use Rattle.rules.specs.Book as B;
ghost use Rattle.rules.specs.Book.{flags};
ghost use Rattle.rules.specs.Judge.{bases_of, is_among};
ghost use Rattle.ground.specs.Parts.{splice};
ghost use Rattle.names.specs.Index.{entry, row, definition_width, Rows, home_number, Says, Known, defined_at};
ghost use Rattle.names.specs.Index.{last_column};
ghost use Rattle.names.specs.Index.{Chained};
ghost use Rattle.names.specs.Chains.{keys, key_of, Chains, Links};
ghost use Rattle.names.specs.References.{bytes_of, Inside, AllInside, reference_of};
ghost use Rattle.names.specs.Rows.{definition_row, Narrow};

use ground::{Name, Reference, put};

// What the row of a definition has; the number of a home is 0 at the model's level, else one more than the topic's
// record number. Columns are numbers, since a row is 16-bit numbers of lent memory and nothing is kept on a heap.
pub const OFFSET: usize = 0;

pub const LENGTH: usize = 1;

const HOME: usize = 2;

const NUMBER: usize = 3;

const SORT: usize = 4;

const FLAGS: usize = 5;

const PLACE: usize = 6;

pub const BASE: usize = 7;

pub const FIRST: usize = 8;

pub const LAST: usize = 9;

// The numbers of a row.
pub const WIDTH: usize = 10;

// How many keys names have; where the last of each key stands, and the next of each definition.
pub const KEYS: usize = 1024;

const LASTS: usize = KEYS;

const NEXTS: usize = KEYS + KEYS;

// ---- the index of definitions
pub fn field(index: &[u16], p: usize, f: usize) -> usize
    requires { (f < definition_width) × Rows index.now p }
    ensures { (result ≡ get_or (row definition_width index.now p) f 0) × (result < 65536) }
{
    usize::from(index[p * WIDTH + f])
}

pub fn number_of(index: &[u16], p: usize) -> usize
    requires { Rows index.now p }
    ensures { (result < 65536) × ((t : List ℕ) (d : Def) → Says t d (row definition_width index.now p)
        → result ≡ d.number) }
{
    field(index, p, NUMBER)
}

// 0 topic, 1 class, 2 structure, 3 domain, 4 unit.
pub fn sort_of(index: &[u16], p: usize) -> usize
    requires { Rows index.now p }
    ensures { (t : List ℕ) (d : Def) → Says t d (row definition_width index.now p)
        → result ≡ sort_number d.sort }
{
    field(index, p, SORT)
}

pub fn flags_of(index: &[u16], p: usize) -> usize
    requires { Rows index.now p }
    ensures { (t : List ℕ) (d : Def) → Says t d (row definition_width index.now p)
        → result ≡ flags d.abstract d.final false d.mandatory }
{
    field(index, p, FLAGS)
}

// Where its record begins in the book.
pub fn place_of(index: &[u16], p: usize) -> usize
    requires { Rows index.now p }
    ensures { (result ≡ get_or (row definition_width index.now p) 6 0) × (result < 65536) }
{
    field(index, p, PLACE)
}

// ---- flags
pub fn is_abstract(flags: usize) -> bool
    ensures { (a f e m : Bool) → flags ≡ B.flags a f e m → result ≡ a }
{
    flags & 1 != 0
}

pub fn is_final(flags: usize) -> bool
    ensures { (a f e m : Bool) → flags ≡ B.flags a f e m → result ≡ f }
{
    flags & 2 != 0
}

pub fn is_mandatory(flags: usize) -> bool
    ensures { (a f e m : Bool) → flags ≡ B.flags a f e m → result ≡ m }
{
    flags & 8 != 0
}

// ---- looking up
pub fn same_name(text: &[u8], a: Name, b: Name) -> bool
    requires { Inside text.now a × Inside text.now b }
    ensures { result ≡ same (bytes_of text.now a) (bytes_of text.now b) }
{
    ground::same_part(text, a.offset, a.len, b.offset, b.len)
}

fn is_home(home: usize, low: usize, high: usize) -> bool
    ensures { result ≡ (eqb home low || eqb home high) }
{
    home == low || home == high
}

// The definition p has the name and one of two homes.
fn is_hit(text: &[u8], index: &[u16], p: usize, name: Name, low: usize, high: usize) -> bool
    requires { Inside text.now name × Rows index.now p }
    ensures { (d : Def) → Says text.now d (row definition_width index.now p)
        → result ≡ defined_at (bytes_of text.now name) low high d }
{
    if !is_home(field(index, p, HOME), low, high) {
        return false;
    }
    let own = Name {
        offset: field(index, p, OFFSET),
        len: field(index, p, LENGTH),
    };
    own.offset + own.len <= text.len() && same_name(text, name, own)
}

// ---- chains of definitions by a key of their name: in the numbers lent stand the first and the last of each key, and
// the next of each
pub fn key_of(text: &[u8], name: Name) -> usize
    requires { Inside text.now name }
    ensures { (result ≡ key_of (bytes_of text.now name)) × (result < keys) }
{
    let mut k = 0;
    for b in &text[name.offset..name.offset + name.len] {
        k = (k * 31 + usize::from(*b)) % KEYS;
    }
    k
}

// The definition with a name at one of two homes; 0 for none.
fn find(
    text: &[u8],
    index: &[u16],
    chains: &[u16],
    count: usize,
    name: Name,
    low: usize,
    high: usize,
) -> usize
    requires { Inside text.now name × Rows index.now count × Links chains.now count }
    ensures { (result ≤ count) × ((ks : List Def) → Known text.now ks index.now count
        → Chains ks chains.now
        → entry ks result ≡ lookup (defined_at (bytes_of text.now name) low high) ks) }
{
    let mut p = usize::from(chains[key_of(text, name)]);
    // No slice or range has the next position: it stands in the lent row. An iterator over it is no plainer.
    while 0 < p {
        if count < p {
            return 0;
        }
        if is_hit(text, index, p, name, low, high) {
            return p;
        }
        let next = usize::from(chains[NEXTS + p]);
        if next <= p {
            return 0;
        }
        p = next;
    }
    0
}

// A bare name: at the model's level and in the open topic, whose number as a home is given. A new name is taken if it
// is found so.
pub fn find_bare(
    text: &[u8],
    index: &[u16],
    chains: &[u16],
    count: usize,
    home: usize,
    name: Name,
) -> usize
    requires { Inside text.now name × Rows index.now count × Links chains.now count }
    ensures { (result ≤ count) × ((s : State)
        → Known text.now (known s.decls) index.now count
        → Chains (known s.decls) chains.now → home ≡ home_number (number_in s.topic)
        → entry (known s.decls) result ≡ at_hand s (bytes_of text.now name)) }
{
    find(text, index, chains, count, name, 0, home)
}

pub fn find_in_model(text: &[u8], index: &[u16], chains: &[u16], count: usize, name: Name) -> usize
    requires { Inside text.now name × Rows index.now count × Links chains.now count }
    ensures { (result ≤ count) × ((s : State)
        → Known text.now (known s.decls) index.now count
        → Chains (known s.decls) chains.now
        → entry (known s.decls) result ≡ at_home s none (bytes_of text.now name)) }
{
    find(text, index, chains, count, name, 0, 0)
}

// In a topic of the model, open or closed.
pub fn find_in_topic(
    text: &[u8],
    index: &[u16],
    chains: &[u16],
    count: usize,
    topic: Name,
    name: Name,
) -> usize
    requires { Inside text.now topic × Inside text.now name × Rows index.now count
        × Links chains.now count }
    ensures { (result ≤ count) × ((s : State)
        → Known text.now (known s.decls) index.now count
        → Chains (known s.decls) chains.now
        → entry (known s.decls) result ≡ in_topic_of s (bytes_of text.now name)
        (at_home s none (bytes_of text.now topic))) }
{
    let p = find_in_model(text, index, chains, count, topic);
    if p == 0 {
        return 0;
    }
    if sort_of(index, p) == ground::sorts::TOPIC {
        let home = number_of(index, p) + 1;
        return find(text, index, chains, count, name, home, home);
    }
    0
}

// What a reference names, in a model of the name given; 0 for nothing.
pub fn resolve(
    text: &[u8],
    index: &[u16],
    chains: &[u16],
    count: usize,
    model: Name,
    home: usize,
    r: Reference,
) -> usize
    requires { Inside text.now model × AllInside text.now r × Rows index.now count
        × Links chains.now count }
    ensures { (result ≤ count) × ((s : State)
        → Known text.now (known s.decls) index.now count
        → Chains (known s.decls) chains.now → home ≡ home_number (number_in s.topic)
        → bytes_of text.now model ≡ s.model.bytes
        → entry (known s.decls) result ≡ D.resolve s (reference_of text.now r)) }
{
    match r {
        Reference::Bare(n) => find_bare(text, index, chains, count, home, n),
        Reference::InModel(m, n) => {
            if same_name(text, m, model) {
                return find_in_model(text, index, chains, count, n);
            }
            0
        }
        Reference::InTopic(m, t, n) => {
            if same_name(text, m, model) {
                return find_in_topic(text, index, chains, count, t, n);
            }
            0
        }
    }
}

// The definition p, the last one, is found by its name's key from now on.
pub fn make_known(chains: &mut [u16], p: usize, key: usize)
    requires { (key < keys) × Links chains.old p × (p < 65536) }
    ensures { (ks : List Def) (d : Def) → Chains ks chains.old → p ≡ length ks + 1
        → key ≡ key_of d.name.bytes → Chains (ks ++ (d ∷ [])) chains.new }
{
    let last = usize::from(chains[LASTS + key]);
    chains[NEXTS + p] = 0;
    if last == 0 {
        chains[key] = p as u16;
        chains[LASTS + key] = p as u16;
        return;
    }
    if last < p {
        chains[NEXTS + last] = p as u16;
        chains[LASTS + key] = p as u16;
    }
}

// ---- bases
// The domain, structure or unit p is the one with a record number, or descends from it.
pub fn descends(index: &[u16], count: usize, p: usize, number: usize) -> bool
    requires { (p ≤ count) × Rows index.now count }
    ensures { (t : List ℕ) (ks : List Def) → Known t ks index.now count
        → Chained ks index.now → result ≡ is_among number (bases_of (entry ks p)) }
{
    let mut at = p;
    // The next position stands in the lent row, as in `find`.
    while 0 < at {
        if number_of(index, at) == number {
            return true;
        }
        let b = field(index, at, BASE);
        if at <= b {
            return false;
        }
        at = b;
    }
    false
}

// ---- entering
// What the index has of a definition. home: 0 at the model's level, else one more than the topic's record number; base:
// its position, 0 for none; first: how many attributes stand before its own.
#[derive(Clone, Copy)]
pub struct NewDefinition {
    pub name: Name,
    pub home: usize,
    pub number: usize,
    pub sort: usize,
    pub flags: usize,
    pub place: usize,
    pub base: usize,
    pub first: usize,
}

// The row of the definition p. Until p is counted, no lookup sees it.
pub fn enter(index: &mut [u16], p: usize, d: NewDefinition)
    requires { Rows index.old p × Narrow d }
    ensures { index.new ≡ splice index.old (p * definition_width) (definition_row d) }
{
    let at = p * WIDTH;
    let name = d.name;
    let row = [
        name.offset as u16,
        name.len as u16,
        d.home as u16,
        d.number as u16,
        d.sort as u16,
        d.flags as u16,
        d.place as u16,
        d.base as u16,
        d.first as u16,
        d.first as u16,
    ];
    put(index, at, &row);
}

// The class p ends with the attribute `last`.
pub fn close(index: &mut [u16], p: usize, last: usize)
    requires { Rows index.old p × (last < 65536) }
    ensures { index.new ≡ set index.old (p * definition_width + last_column) last }
{
    index[p * WIDTH + LAST] = last as u16;
}
