// Attributes: an index of them in lent numbers, and the open class with the nearest attribute of each name.
#![tactic(auto)]

ghost use Rattle.std.specs.Prelude.{◌≡◌, false, List, [], ◌++◌, ℕ, ◌+◌, ◌*◌, ◌≤◌, ◌<◌, length, get_or, drop};
ghost use Rattle.std.proofs.Math.Option.{some};
ghost use Rattle.rules.specs.Bytes.{same};
ghost use Rattle.rules.specs.Declarations.{Def, Attribute, attributes_of, attribute_at, is_found};
ghost use Rattle.rules.specs.Book.{flags};
ghost use Rattle.rules.specs.Judge.{or_no_def};
ghost use Rattle.ground.specs.Parts.{splice};
ghost use Rattle.names.specs.Index.{entry, row, Rows};
ghost use Rattle.names.specs.References.{bytes_of, Inside};
ghost use Rattle.members.specs.Members.{Tells, Members, Unlike, Indexed, Filled, slot_of, unless_in, nearest_to};
ghost use Rattle.members.specs.Members.{nearest, with_nearest, attribute_width, AttributeRows, most, Hand};
ghost use Rattle.members.specs.Held.{Opened, InHand, Apart};
ghost use Rattle.members.specs.Rows.{member_row, Narrow};

use ground::{Name, put};
use names::{BASE, FIRST, LAST, LENGTH, OFFSET, field, same_name};

// What the row of an attribute has, behind its name's offset and length.
const NUMBER: usize = 2;

const PLACE: usize = 3;

const FLAGS: usize = 4;

const USE: usize = 5;

// The numbers of a row.
pub const WIDTH: usize = 6;

// How many attributes a class has at most: where the positions begin in the hand.
pub const MOST: usize = 256;

// ---- attributes
fn member(rows: &[u16], q: usize, f: usize) -> usize
    requires { (f < 6) × AttributeRows rows.now q }
    ensures { (result ≡ get_or (row attribute_width rows.now q) f 0) × (result < 65536) }
{
    usize::from(rows[q * WIDTH + f])
}

pub fn member_number(rows: &[u16], q: usize) -> usize
    requires { AttributeRows rows.now q }
    ensures { (result < 65536) × ((t : List ℕ) (a : Attribute) → Tells t a (row attribute_width rows.now q)
        → result ≡ a.number) }
{
    member(rows, q, NUMBER)
}

pub fn member_flags(rows: &[u16], q: usize) -> usize
    requires { AttributeRows rows.now q }
    ensures { (t : List ℕ) (a : Attribute) → Tells t a (row attribute_width rows.now q)
        → result ≡ flags false a.final a.extended a.mandatory }
{
    member(rows, q, FLAGS)
}

// Where its record begins in the book.
pub fn member_place(rows: &[u16], q: usize) -> usize
    requires { AttributeRows rows.now q }
    ensures { (result ≡ get_or (row attribute_width rows.now q) 3 0) × (result < 65536) }
{
    member(rows, q, PLACE)
}

// The domain or structure that it names; 0 for a type in place.
pub fn member_use(rows: &[u16], q: usize) -> usize
    requires { AttributeRows rows.now q }
    ensures { (result ≡ get_or (row attribute_width rows.now q) 5 0) × (result < 65536) }
{
    member(rows, q, USE)
}

// The attribute q has the name.
fn is_named(text: &[u8], rows: &[u16], total: usize, q: usize, name: Name) -> bool
    requires { Inside text.now name × AttributeRows rows.now total }
    ensures { q ≤ total → (a : Attribute)
        → Tells text.now a (row attribute_width rows.now q)
        → result ≡ same (bytes_of text.now name) a.name.bytes }
{
    if total < q {
        return false;
    }
    let own = Name {
        offset: member(rows, q, OFFSET),
        len: member(rows, q, LENGTH),
    };
    own.offset + own.len <= text.len() && same_name(text, name, own)
}

// ---- the hand: the record numbers of the open class's attributes, own and inherited, of each name the nearest; behind
// them their positions

// The first of those held that has a name, counted from 1; 0 for none. Inlined, as it often looks at one or two.
#[inline(always)]
pub fn find_attribute(
    text: &[u8],
    rows: &[u16],
    total: usize,
    hand: &[u32],
    count: usize,
    name: Name,
) -> usize
    requires { Inside text.now name × AttributeRows rows.now total × (count ≤ most) × Hand hand.now }
    ensures { (result ≤ count) × ((ms h : List Attribute) → Members text.now ms rows.now total
        → Filled ms hand.now count h
        → result ≡ slot_of (bytes_of text.now name) h) }
{
    for (i, q) in hand[MOST..MOST + count].iter().enumerate() {
        if is_named(text, rows, total, *q as usize, name) {
            return i + 1;
        }
    }
    0
}

// The attribute at the slot r is an own one of the open class, whose record number is given.
pub fn is_own(hand: &[u32], r: usize, class: usize) -> bool
    requires { (0 < r) × (r ≤ length hand.now) }
    ensures { (ms : List Attribute) (n : ℕ) (c : Def) (m : List ℕ) (o : Opened ms hand.now n c)
        → Apart c → class ≡ c.number → r ≡ slot_of m o.hand
        → result ≡ is_found (attribute_at m c.own) }
{
    class < hand[r - 1] as usize
}

// One attribute more, unless its name is among the first `nearer`.
fn add(
    text: &[u8],
    rows: &[u16],
    total: usize,
    q: usize,
    hand: &mut [u32],
    nearer: usize,
    n: usize,
) -> usize
    requires { AttributeRows rows.now total × (q ≤ total) × (total < 65536) × (nearer ≤ n) × (n ≤ most)
        × Hand hand.old }
    ensures { (n ≤ result) × (result ≤ most) × ((ms g h : List Attribute) (a : Attribute)
        → Members text.now ms rows.now total → entry ms q ≡ some a
        → Filled ms hand.old nearer g → Filled ms hand.old n h → length (unless_in g h a) ≤ most
        → Filled ms hand.new result (unless_in g h a)) }
{
    if n < MOST {
        let name = Name {
            offset: member(rows, q, OFFSET),
            len: member(rows, q, LENGTH),
        };
        if name.offset + name.len <= text.len() {
            if find_attribute(text, rows, total, hand, nearer, name) == 0 {
                hand[n] = member(rows, q, NUMBER) as u32;
                hand[MOST + n] = q as u32;
                return n + 1;
            }
        }
    }
    n
}

// The attributes of a class, behind the position `first` up to `last`.
fn add_own(
    text: &[u8],
    rows: &[u16],
    total: usize,
    first: usize,
    last: usize,
    hand: &mut [u32],
    count: usize,
) -> usize
    requires { AttributeRows rows.now total × (last ≤ total) × (total < 65536) × (count ≤ most)
        × Hand hand.old }
    ensures { (result ≤ most) × ((ms g own more : List Attribute)
        → Members text.now ms rows.now total
        → Filled ms hand.old count g → drop first ms ≡ own ++ more → last ≡ first + length own → Unlike own
        → length (nearest_to g own) ≤ most
        → Filled ms hand.new result (nearest_to g own)) }
{
    let mut n = count;
    for q in first..last {
        n = add(text, rows, total, q + 1, hand, count, n);
    }
    n
}

// The attributes that a class over `base` inherits: along the bases, the nearer first.
pub fn fill(
    text: &[u8],
    index: &[u16],
    count: usize,
    rows: &[u16],
    total: usize,
    base: usize,
    hand: &mut [u32],
) -> usize
    requires { (base ≤ count) × Rows index.now count × AttributeRows rows.now total × (total < 65536)
        × Hand hand.old }
    ensures { (result ≤ most) × ((ks : List Def) (ms : List Attribute)
        → Indexed text.now ks ms index.now count rows.now total
        → Filled ms hand.new result (nearest (attributes_of (or_no_def (entry ks base))))) }
{
    let mut n = 0;
    let mut c = base;
    // No slice or range has the next position: it stands in the lent row. An iterator over it is no plainer.
    while 0 < c {
        let first = field(index, c, FIRST);
        let last = field(index, c, LAST);
        if total < last {
            return n;
        }
        n = add_own(text, rows, total, first, last, hand, n);
        let b = field(index, c, BASE);
        if c <= b {
            return n;
        }
        c = b;
    }
    n
}

// Whose attributes are in hand, a definition's by its position, and how many they are.
#[derive(Clone, Copy)]
pub struct Held {
    pub class: usize,
    pub count: usize,
}

// The attributes of a class over `base` that opens. Those of the class that closed last are in hand.
pub fn inherit(
    text: &[u8],
    index: &[u16],
    count: usize,
    rows: &[u16],
    total: usize,
    base: usize,
    held: Held,
    hand: &mut [u32],
) -> usize
    requires { (base ≤ count) × (held.count ≤ most) × Rows index.now count × AttributeRows rows.now total
        × (total < 65536) × Hand hand.old }
    ensures { (result ≤ most) × ((ks : List Def) (ms : List Attribute) (c : Def)
        → Indexed text.now ks ms index.now count rows.now total
        → InHand ms hand.old held.count (entry ks held.class)
        → c.own ≡ [] → c.inherited ≡ attributes_of (or_no_def (entry ks base)) → Opened ms hand.new result c) }
{
    if base == held.class && 0 < base {
        return held.count;
    }
    fill(text, index, count, rows, total, base, hand)
}

// ---- entering
// What the index has of an attribute. use_of: the position of the domain or structure that it names, 0 for a type in
// place.
#[derive(Clone, Copy)]
pub struct NewAttribute {
    pub name: Name,
    pub number: usize,
    pub place: usize,
    pub flags: usize,
    pub use_of: usize,
}

// The row of the attribute q.
pub fn enter_member(rows: &mut [u16], q: usize, m: NewAttribute)
    requires { AttributeRows rows.old q × Narrow m }
    ensures { rows.new ≡ splice rows.old (q * attribute_width) (member_row m) }
{
    let name = m.name;
    let row = [
        name.offset as u16,
        name.len as u16,
        m.number as u16,
        m.place as u16,
        m.flags as u16,
        m.use_of as u16,
    ];
    put(rows, q * WIDTH, &row);
}

// The attribute q, of a record number, becomes one of the open class: in the place of the one at the slot r, or behind
// all n where r is 0.
pub fn hold(hand: &mut [u32], n: usize, r: usize, number: usize, q: usize) -> usize
    requires { (r ≤ n) × (n ≤ most) × (r ≡ 0 → n < most) × (number < 65536) × (q < 65536) × Hand hand.old }
    ensures { (result ≤ most) × ((ms h : List Attribute) (a : Attribute) → entry ms q ≡ some a → number ≡ a.number
        → r ≡ slot_of a.name.bytes h → Filled ms hand.old n h
        → Filled ms hand.new result (with_nearest h a)) }
{
    if r == 0 {
        hand[n] = number as u32;
        hand[MOST + n] = q as u32;
        return n + 1;
    }
    let slot = r - 1;
    hand[slot] = number as u32;
    hand[MOST + slot] = q as u32;
    n
}
