// One enumeration held against another: whether every legal value of the first has a legal reading in the second.
#![tactic(auto)]

ghost use Rattle.std.specs.Prelude.{◌≡◌, ◌+◌, ◌≤◌, ◌<◌, length, Some};
ghost use Rattle.rules.specs.Enumerations.{Enum, fits_in, enum_fits};
ghost use Rattle.enumerations.specs.Standing.{Deep, Stands};
ghost use Rattle.holding.specs.Holding.{held_of, held_at, Reads};
ghost use Rattle.tables.specs.Tables.{Gathered, TableFor};
ghost use Rattle.book.specs.Sizes.{element_size};

use book::{ELEMENT_SIZE, written_name};
use enumerations::{Inner, inner_at, is_element, past_inner};
use tables::Table;
use tables::twice::gather;

// It fits, or not, or as a list and what is held against it say.
#[derive(Clone, Copy)]
pub enum Held {
    Fits,
    Misfit,
    Deeper { own: Inner, base: Option<Inner> },
}

// What is inside an element of the first, held against what is inside the second's: a leaf against a leaf, or their
// lists.
fn held_inside(s: &[u8], own: Option<Inner>, base: Option<Inner>) -> Held
    ensures { result ≡ held_of s.now own base }
{
    if let Some(own) = own
        && is_element(s, own.list)
    {
        return Held::Deeper { own, base };
    }
    if let Some(base) = base
        && is_element(s, base.list)
    {
        return Held::Misfit;
    }
    Held::Fits
}

// The first's element at a place, held against the second: one that this lacks is added to it.
#[tactic(auto, using(enumerations::proofs::ListLaws::as_written), unfolding(crate::specs::Holding::held_at))]
fn held_element(table: &Table, at: usize, base: Option<Inner>) -> Held
    requires { at + element_size ≤ length table.now.s.now }
    ensures { Gathered table.now.text.now table.now.s.now table.now.grid table.now.numbers.now
        → result ≡ held_at table.now.text.now table.now.s.now at base }
{
    let s = table.s;
    match table.find(base.map(|base| base.list), written_name(s, at)) {
        Some(m) => held_inside(s, inner_at(s, at + ELEMENT_SIZE), inner_at(s, m)),
        None if base.is_some_and(|base| base.is_final) => Held::Misfit,
        None => Held::Fits,
    }
}

// A list of the first held against the second, nested at most `left` deep inside. OTHERS of a list not FINAL is a legal
// value, which a FINAL list does not take.
fn fits_in(table: &Table, own: Inner, base: Option<Inner>, left: usize) -> bool
    ensures { Gathered table.now.text.now table.now.s.now table.now.grid table.now.numbers.now → (e b : Enum)
        → Reads table.now.text.now table.now.s.now e (Some own)
        → Reads table.now.text.now table.now.s.now b base
        → Deep left e → result ≡ fits_in e b }
{
    let mut at = own.list;
    while is_element(table.s, at) {
        let held = held_element(table, at, base);
        at = past_inner(table.s, at + ELEMENT_SIZE);
        match held {
            Held::Fits => continue,
            Held::Misfit => return false,
            Held::Deeper { own, base } => {
                if left == 0 || !fits_in(table, own, base, left - 1) {
                    return false;
                }
            }
        }
    }
    own.is_final || !base.is_some_and(|base| base.is_final)
}

// The enumeration at `own` held against the one at `base`, which is gathered: the cost is that of merging.
pub fn fits(text: &[u8], s: &[u8], own: usize, base: usize, table: &mut [u32]) -> bool
    requires { (length s.now < 4294967295) × TableFor (length s.now) (length table.old) }
    ensures { (e b : Enum) → Stands text.now s.now e own
        → Stands text.now s.now b base → result ≡ enum_fits e b }
{
    match held_inside(s, inner_at(s, own), inner_at(s, base)) {
        Held::Fits => true,
        Held::Misfit => false,
        Held::Deeper {
            own: list,
            base: of,
        } => {
            let table = gather(text, s, base, table);
            fits_in(&table, list, of, 7)
        }
    }
}
