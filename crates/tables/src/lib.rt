// Elements by their list and name, in lent numbers: chains through the elements of one enumeration. First stand the
// heads of the chains, by key; then for each element the next of its chain, and then the start of its list. Each is
// one more than the place, and 0 is none. To look up or to enter takes a step for each byte of the name and each
// element before it in its chain: few, unless a text is made so that keys meet.
#![tactic(auto)]

pub mod twice;

ghost use Rattle.std.specs.Prelude.{◌≡◌, List, ◌∷◌, ℕ, ◌+◌, ◌*◌, ◌%◌, ◌≤◌, ◌<◌, length, get_or, eqb};
ghost use Rattle.enumerations.specs.Lists.{find_of};
ghost use Rattle.tables.specs.Tables.{Entry, seek_in, hash_from, key_of, slot, number_of, cell_of, list_of, hits};
ghost use Rattle.tables.specs.Tables.{Sized, Next};
ghost use Rattle.tables.specs.Tables.{Filled, Clash, Gathered, GridFor};
ghost use Rattle.book.specs.Sizes.{element_size};

use book::{ELEMENT_SIZE, LIST_SIZE, written_name};
use enumerations::{find, is_element, is_opening, list_end, part_of, same_name};
use ground::Name;

// An enumeration's elements stand from `from` on. One is six bytes long, so that its place by six is a number of its
// own, below `keys`: there are as many keys as elements have room, and an enumeration takes as much of the table as it
// is long.
#[derive(Clone, Copy)]
pub struct Grid {
    pub from: usize,
    pub keys: usize,
}

// Elements among the records in `s`, with their names in the text, and the numbers in which they are entered.
#[derive(Clone, Copy)]
pub struct Table<'t, 's, 'n> {
    pub text: &'t [u8],
    pub s: &'s [u8],
    pub numbers: &'n [u32],
    pub grid: Grid,
    pub ghost sized: { Sized grid numbers.now },
}

// ---- keys and numbers
// The hashes are below this.
const HASHES: usize = 16777216;

// Of a name in a list.
fn hash(list: usize, name: &[u8]) -> usize
    ensures { result ≡ hash_from (list % 16777216) name.now }
{
    let mut k = list % HASHES;
    for b in name {
        k = (k * 131 + usize::from(*b)) % HASHES;
    }
    k
}

#[tactic(auto, unfolding(crate::specs::Tables::key_of))]
fn key_of(text: &[u8], keys: usize, list: usize, name: Name) -> usize
    requires { 0 < keys }
    ensures { (result ≡ key_of text.now keys list name) × (result < keys) }
{
    match part_of(text, name) {
        Some(bytes) => hash(list, bytes) % keys,
        None => 0,
    }
}

// The place that a number is one more than.
fn place_of(number: u32) -> Option<usize>
    ensures { (number_of result ≡ number) × (number_of result < 4294967296) }
{
    (number as usize).checked_sub(1)
}

impl Grid {
    fn slot(self, p: usize) -> usize
        ensures { result ≡ slot self p }
    {
        p.saturating_sub(self.from) / ELEMENT_SIZE
    }
}

// ---- looking up
impl Table<'_, '_, '_> {
    // What is numbered for the element at a place, in the row of numbers from i on.
    fn cell(&self, i: usize, p: usize) -> Option<usize>
        requires { i + self.now.grid.keys ≤ length self.now.numbers.now }
        ensures { (number_of result ≡ cell_of self.now.grid self.now.numbers.now i p)
            × (number_of result < 4294967296) }
    {
        let j = self.grid.slot(p);
        if j < self.grid.keys {
            return place_of(self.numbers[i + j]);
        }
        None
    }

    // The element at a place is entered as one of the list.
    #[tactic(auto, using(crate::proofs::TableLaws::number_eq))]
    fn is_of_list(&self, p: usize, list: usize) -> bool
        ensures { result ≡ eqb (list_of self.now.grid self.now.numbers.now p) (list + 1) }
    {
        self.cell(2 * self.grid.keys, p) == Some(list)
    }

    #[tactic(auto, using(enumerations::proofs::ListLaws::as_written), unfolding(crate::specs::Tables::hits))]
    fn is_hit(&self, p: usize, list: usize, name: Name) -> bool
        ensures { result ≡ hits self.now.text.now self.now.s.now self.now.grid self.now.numbers.now p list name }
    {
        self.is_of_list(p, list)
            && is_element(self.s, p)
            && same_name(self.text, name, written_name(self.s, p))
    }

    // Past the name of the element of a list that is entered under a name.
    fn seek(&self, list: usize, name: Name) -> Option<usize>
        ensures { (es : List Entry) (p : ℕ)
            → Filled self.now.text.now self.now.s.now self.now.grid self.now.numbers.now es p
            → result ≡ seek_in self.now.text.now self.now.s.now list name es }
    {
        let k = key_of(self.text, self.grid.keys, list, name);
        let mut at = place_of(self.numbers[k]);
        while let Some(p) = at {
            if self.is_hit(p, list, name) {
                return Some(p + ELEMENT_SIZE);
            }
            at = self.cell(self.grid.keys, p).filter(|&next| next < p);
        }
        None
    }

    // The same of any list, if there is one: one that is not entered is searched through. Of the enumeration that is
    // gathered none is, unless it is empty.
    pub fn find(&self, list: Option<usize>, name: Name) -> Option<usize>
        ensures { Gathered self.now.text.now self.now.s.now self.now.grid self.now.numbers.now
            → result ≡ find_of self.now.text.now self.now.s.now list name }
    {
        let list = list?;
        let m = self.seek(list, name);
        if m.is_some() || self.is_of_list(list, list) {
            return m;
        }
        find(self.text, self.s, list, name)
    }
}

// ---- entering
// The first n numbers are none.
pub fn clear(table: &mut [u32], n: usize)
    requires { n ≤ length table.old }
    ensures { (i : ℕ) → i < n → get_or table.new i 0 ≡ 0 }
{
    table[..n].fill(0);
}

// The element at a place is put before the others of its key.
fn enter(text: &[u8], s: &[u8], table: &mut [u32], g: Grid, list: usize, at: usize)
    requires { Sized g table.old × (list ≤ at) × (at + element_size ≤ length s.now)
        × (length s.now < 4294967295) }
    ensures { (es : List Entry) → Filled text.now s.now g table.old es at
        → Next s.now g list at
        → Filled text.now s.now g table.new (record { list = list; at = at } ∷ es)
        (at + element_size) }
{
    let keys = g.keys;
    let j = g.slot(at);
    if j < keys {
        let k = key_of(text, keys, list, written_name(s, at));
        table[keys + j] = table[k];
        table[keys + keys + j] = (list + 1) as u32;
        table[k] = (at + 1) as u32;
    }
}

// Whether an entered element of the list has the name of the one at a place. If none has, it is entered.
pub fn clashes(text: &[u8], s: &[u8], table: &mut [u32], g: Grid, list: usize, at: usize) -> bool
    requires { Sized g table.old × (list ≤ at) × (at + element_size ≤ length s.now)
        × (length s.now < 4294967295) }
    ensures { (es : List Entry) → Filled text.now s.now g table.old es at
        → Next s.now g list at
        → Clash text.now s.now g es list at table.new result }
{
    let entered = Table {
        text,
        s,
        numbers: table,
        grid: g,
    };
    if entered.seek(list, written_name(s, at)).is_some() {
        return true;
    }
    enter(text, s, table, g, list, at);
    false
}

// For the enumeration at a place.
pub fn grid_of(s: &[u8], at: usize) -> Grid
    ensures { GridFor s.now at result }
{
    if is_opening(s, at) {
        let from = at + LIST_SIZE;
        let end = list_end(s, from).at;
        if end <= s.len() {
            return Grid {
                from,
                keys: (end - from) / ELEMENT_SIZE + 1,
            };
        }
    }
    Grid { from: 0, keys: 1 }
}
