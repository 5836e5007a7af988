// What every floor uses: rulings, parts of a text, lent buffers, numbers as bytes.
#![tactic(auto)]

pub mod runs;
pub mod sorts;

ghost use Rattle.std.specs.Prelude.{◌≡◌, ◌&&◌, [], ◌+◌, ◌≤◌, ◌<◌, length, get_or, leb};
ghost use Rattle.rules.specs.Bytes.{same, is_digit};
ghost use Rattle.rules.specs.Book.{low_first, twos, padded};
ghost use Rattle.rules.specs.Show.{read4};
ghost use Rattle.ground.specs.Parts.{part, splice, put_at};

// A name, or another part of the text: its place and its length.
#[derive(Clone, Copy, PartialEq, Eq, Debug)]
pub struct Name {
    pub offset: usize,
    pub len: usize,
}

// A name alone, one in the model, one in a topic of the model.
#[derive(Clone, Copy, PartialEq, Eq, Debug)]
pub enum Reference {
    Bare(Name),
    InModel(Name, Name),
    InTopic(Name, Name, Name),
}

// A rule that is broken, and its place.
#[derive(Clone, Copy)]
pub struct Ruling {
    pub number: u8,
    pub place: usize,
}

// ---- tests
pub fn between(lo: u8, hi: u8, b: u8) -> bool
    ensures { result ≡ (leb lo b && leb b hi) }
{
    lo <= b && b <= hi
}

pub fn is_digit(b: u8) -> bool
    ensures { result ≡ is_digit b }
{
    b.is_ascii_digit()
}

// The byte at a place, 0 behind the end.
pub fn byte_at(text: &[u8], at: usize) -> u8
    ensures { result ≡ get_or text.now at 0 }
{
    text.get(at).copied().unwrap_or(0)
}

// ---- parts
// The same n bytes stand at i in s and at j in t.
pub fn same_bytes(s: &[u8], i: usize, t: &[u8], j: usize, n: usize) -> bool
    requires { (i + n ≤ length s.now) × (j + n ≤ length t.now) }
    ensures { result ≡ same (part s.now i n) (part t.now j n) }
{
    s[i..i + n] == t[j..j + n]
}

// Two parts of a text have the same bytes.
pub fn same_part(text: &[u8], a: usize, m: usize, b: usize, n: usize) -> bool
    requires { (a + m ≤ length text.now) × (b + n ≤ length text.now) }
    ensures { result ≡ same (part text.now a m) (part text.now b n) }
{
    text[a..a + m] == text[b..b + n]
}

// ---- lent buffers
// Every byte zero.
pub fn clear(out: &mut [u8])
    ensures { out.new ≡ padded [] (length out.old) }
{
    out.fill(0);
}

// The values of src, from a place on.
pub fn put<T: Copy>(out: &mut [T], at: usize, src: &[T])
    requires { at + length src.now ≤ length out.old }
    ensures { out.new ≡ splice out.old at src.now }
{
    for (i, v) in src.iter().enumerate() {
        out[at + i] = *v;
    }
}

// The same bytes, if they fit.
#[tactic(auto, unfolding(crate::specs::Parts::put_at))]
pub fn put_if(out: &mut [u8], at: usize, src: &[u8])
    requires { at + length src.now < 18446744073709551616 }
    ensures { out.new ≡ put_at out.old at src.now }
{
    if at + src.len() <= out.len() {
        put(out, at, src);
    }
}

// ---- numbers, their low byte first
pub fn low4(n: usize) -> [u8; 4]
    ensures { result ≡ low_first 4 n }
{
    let [a, b, c, d, ..] = n.to_le_bytes();
    [a, b, c, d]
}

// In two's complement.
pub fn low8(v: i64) -> [u8; 8]
    ensures { result ≡ low_first 8 (twos v) }
{
    v.to_le_bytes()
}

// The number of four bytes from a place on.
pub fn get4(s: &[u8], at: usize) -> u32
    requires { at + 4 ≤ length s.now }
    ensures { result ≡ read4 s.now at }
{
    u32::from_le_bytes([s[at], s[at + 1], s[at + 2], s[at + 3]])
}
