// Doubled elements: the first element, in text order over all levels, whose name an earlier one of its list has. To
// find it the elements are entered in a table, which serves to look them up where none is doubled.
ghost use Rattle.std.specs.Prelude.{◌≡◌, List, [], ◌+◌, ◌*◌, ◌≤◌, ◌<◌, length};
ghost use Rattle.std.proofs.Math.Option.{none};
ghost use Rattle.rules.specs.Enumerations.{Enum, twice};
ghost use Rattle.enumerations.specs.Standing.{Deep, Stands, ListAt};
ghost use Rattle.tables.specs.Doubling.{PastIn, found_of, CheckedAs};
ghost use Rattle.tables.specs.Tables.{Entry, Sized, Filled, Gathered, InGrid, GridFor, TableFor};

use crate::{Grid, Table, clashes, clear, grid_of};
use book::{ELEMENT_SIZE, LIST_SIZE, written_name};
use enumerations::{is_element, is_opening};

// An element has the name of an earlier one of its list: the place of its name.
#[derive(Clone, Copy)]
pub struct Repeated {
    pub place: usize,
}

// Past the list at a place, nested at most `left` deep inside, if no element is doubled. Up to there its elements are
// entered. The numbers stay a parameter: a struct that holds them as `&mut` has to promise in each contract that it
// still holds the same, and is no plainer.
fn in_list(
    text: &[u8],
    s: &[u8],
    list: usize,
    left: usize,
    table: &mut [u32],
    g: Grid,
) -> Result<usize, Repeated>
    requires { Sized g table.old × (list ≤ length s.now) × (length s.now < 4294967295) }
    ensures within { PastIn result list (length s.now) }
    ensures first { (e : Enum) (es : List Entry) → ListAt text.now s.now e list
        → Deep left e → InGrid g e list → Filled text.now s.now g table.old es list
        → CheckedAs text.now s.now g es e list table.new result }
{
    let mut at = list;
    while is_element(s, at) {
        let name = written_name(s, at);
        let next = at + ELEMENT_SIZE;
        if clashes(text, s, table, g, list, at) {
            return Err(Repeated { place: name.offset });
        }
        if is_opening(s, next) {
            if left == 0 {
                return Ok(next);
            }
            at = in_list(text, s, next + LIST_SIZE, left - 1, table, g)?;
            continue;
        }
        at = next;
    }
    if at < s.len() {
        return Ok(at + 1);
    }
    Ok(at)
}

// Of the enumeration at a place, with the grid for it.
fn entered(text: &[u8], s: &[u8], at: usize, table: &mut [u32], g: Grid) -> Option<usize>
    requires { Sized g table.old × (length s.now < 4294967295) × GridFor s.now at g }
    ensures { (e : Enum) → Stands text.now s.now e at → (result ≡ found_of (twice e []))
        × (result ≡ None → Gathered text.now s.now g table.new) }
{
    clear(table, 3 * g.keys);
    if is_opening(s, at) {
        return in_list(text, s, at + LIST_SIZE, 7, table, g)
            .err()
            .map(|d| d.place);
    }
    None
}

// Of the enumeration at a place: a few steps for each of its records, and a look into the table for each element.
pub fn doubled(text: &[u8], s: &[u8], at: usize, table: &mut [u32]) -> Option<usize>
    requires { (length s.now < 4294967295) × TableFor (length s.now) (length table.old) }
    ensures { (e : Enum) → Stands text.now s.now e at → result ≡ found_of (twice e []) }
{
    entered(text, s, at, table, grid_of(s, at))
}

// The table of the enumeration at a place, at the cost of `doubled`. It is left empty if an element is doubled.
pub fn gather<'t, 's, 'n>(
    text: &'t [u8],
    s: &'s [u8],
    at: usize,
    table: &'n mut [u32],
) -> Table<'t, 's, 'n>
    requires { (length s.now < 4294967295) × TableFor (length s.now) (length table.old) }
    ensures same_text { result.text.now ≡ text.now }
    ensures same_records { result.s.now ≡ s.now }
    ensures gathered { (e : Enum) → Stands text.now s.now e at
        → Gathered text.now s.now result.grid result.numbers.now }
{
    let grid = grid_of(s, at);
    if entered(text, s, at, table, grid).is_some() {
        clear(table, 3 * grid.keys);
    }
    Table {
        text,
        s,
        numbers: table,
        grid,
    }
}
