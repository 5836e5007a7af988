// Enumerations as records in bytes: a list of elements stands behind the record that opens it, up to the record that
// closes it.
#![tactic(auto)]

ghost use Rattle.std.specs.Prelude.{◌≡◌, ◌&&◌, List, ℕ, ◌+◌, ◌-◌, ◌≤◌, ◌<◌, length, get_or, eqb, leb, true};
ghost use Rattle.std.specs.Prelude.{MatchOption, IfSome};
ghost use Rattle.rules.specs.Enumerations.{Enum};
ghost use Rattle.ground.specs.Parts.{part, splice};
ghost use Rattle.enumerations.specs.Lists.{is_element, is_opening, element_at, end_from, past_inner, inner_at};
ghost use Rattle.enumerations.specs.Lists.{same_names};
ghost use Rattle.enumerations.specs.Lists.{find_from};
ghost use Rattle.book.specs.Sizes.{element_size, list_size};
ghost use Rattle.enumerations.specs.Standing.{Stands};
ghost use Rattle.enumerations.specs.Records.{records, size_of};

use book::{ELEMENT_SIZE, LIST_END_SIZE, LIST_FINAL, LIST_SIZE, kinds, written_name};
use ground::Name;

// Past the record that closes a list, and how many records that passes.
#[derive(Clone, Copy)]
pub struct End {
    pub at: usize,
    pub records: usize,
}

// How much records take.
#[derive(Clone, Copy)]
pub struct Size {
    pub bytes: usize,
    pub records: usize,
}

// The inner enumeration behind an element's name that has records: where its list stands, whether it is FINAL.
#[derive(Clone, Copy)]
pub struct Inner {
    pub list: usize,
    pub is_final: bool,
}

// A record of this kind and size stands at a place.
fn is_of_kind(s: &[u8], at: usize, kind: u8, size: usize) -> bool
    requires { 0 < size }
    ensures value { result ≡ (leb (at + size) (length s.now) && eqb (get_or s.now at 0) kind) }
    ensures inside { result ≡ true → at + size ≤ length s.now }
{
    size <= s.len().saturating_sub(at) && s[at] == kind
}

#[tactic(auto, unfolding(crate::specs::Lists::is_element))]
pub fn is_element(s: &[u8], at: usize) -> bool
    ensures value { result ≡ is_element s.now at }
    ensures inside { result ≡ true → at + element_size ≤ length s.now }
{
    is_of_kind(s, at, kinds::ELEMENT, ELEMENT_SIZE)
}

#[tactic(auto, unfolding(crate::specs::Lists::is_opening))]
pub fn is_opening(s: &[u8], at: usize) -> bool
    ensures value { result ≡ is_opening s.now at }
    ensures inside { result ≡ true → at + list_size ≤ length s.now }
{
    is_of_kind(s, at, kinds::LIST, LIST_SIZE)
}

// The place, if an element stands there.
pub fn element_at(s: &[u8], at: Option<usize>) -> Option<usize>
    ensures value { result ≡ element_at s.now at }
    ensures inside { IfSome result (λ p. p + element_size ≤ length s.now) }
{
    at.filter(|&at| is_element(s, at))
}

// The end of the list at a place: a record's size is known by its kind alone, so that no range counts the steps.
pub fn list_end(s: &[u8], list: usize) -> End
    requires { list ≤ length s.now }
    ensures { ((f : ℕ) → length s.now - list < f → result ≡ end_from f s.now list 0 0)
        × (list ≤ result.at) × (result.records ≤ length s.now) }
{
    let mut at = list;
    let mut inner: usize = 0;
    let mut records: usize = 0;
    while at < s.len() {
        records += 1;
        match s[at] {
            kinds::ELEMENT => at += ELEMENT_SIZE,
            kinds::LIST => {
                at += LIST_SIZE;
                inner += 1;
            }
            _ => {
                at += LIST_END_SIZE;
                if inner == 0 {
                    break;
                }
                inner -= 1;
            }
        }
    }
    End { at, records }
}

// Past the inner enumeration at a place, if there is one.
#[tactic(auto, unfolding(crate::specs::Lists::past_inner))]
pub fn past_inner(s: &[u8], at: usize) -> usize
    ensures { (result ≡ past_inner s.now at) × (at ≤ result) }
{
    if is_opening(s, at) {
        return list_end(s, at + LIST_SIZE).at;
    }
    at
}

// The inner enumeration at a place.
#[tactic(auto, unfolding(crate::specs::Lists::inner_at))]
pub fn inner_at(s: &[u8], at: usize) -> Option<Inner>
    ensures { result ≡ inner_at s.now at }
{
    if is_opening(s, at) {
        return Some(Inner {
            list: at + LIST_SIZE,
            is_final: s[at + LIST_FINAL] == 1,
        });
    }
    None
}

// A part of the text, if it lies in it.
pub fn part_of<'a>(text: &'a [u8], p: Name) -> Option<&'a [u8]>
    ensures { MatchOption result (length text.now < p.offset + p.len)
        (λ b. (p.offset + p.len ≤ length text.now) × (b.now ≡ part text.now p.offset p.len)) }
{
    if p.len <= text.len() && p.offset <= text.len() - p.len {
        return Some(&text[p.offset..p.offset + p.len]);
    }
    None
}

// Two names of the text are the same.
#[tactic(auto, unfolding(crate::specs::Lists::same_names))]
pub fn same_name(text: &[u8], a: Name, b: Name) -> bool
    ensures { result ≡ same_names text.now a b }
{
    match (part_of(text, a), part_of(text, b)) {
        (Some(a), Some(b)) => a == b,
        _ => false,
    }
}

// Past the name of the element with a name in the list at a place; the steps are as long as what
// is inside each element.
pub fn find(text: &[u8], s: &[u8], list: usize, name: Name) -> Option<usize>
    ensures { (f : ℕ) → length s.now - list < f
        → result ≡ find_from f text.now s.now list name }
{
    let mut at = list;
    while is_element(s, at) {
        if same_name(text, name, written_name(s, at)) {
            return Some(at + ELEMENT_SIZE);
        }
        at = past_inner(s, at + ELEMENT_SIZE);
    }
    None
}

// How much the enumeration at a place takes.
pub fn size_of(s: &[u8], at: usize) -> Size
    ensures { (t : List ℕ) (e : Enum) → Stands t s.now e at → result ≡ size_of (records e) }
{
    if is_opening(s, at) {
        let e = list_end(s, at + LIST_SIZE);
        return Size {
            bytes: e.at - at,
            records: e.records + 1,
        };
    }
    Size {
        bytes: 0,
        records: 0,
    }
}

// The n bytes at `from` once more, at a place behind them.
pub fn copy_within(out: &mut [u8], from: usize, n: usize, at: usize)
    requires { (from + n ≤ at) × (at + n ≤ length out.old) }
    ensures { out.new ≡ splice out.old at (part out.old from n) }
{
    let (front, back) = out.split_at_mut(at);
    ground::put(back, 0, &front[from..from + n]);
}
