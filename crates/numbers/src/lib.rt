// Numbers: what a number symbol writes, powers of ten, a number's reading at a base, and whether a bound fits the
// base's.
#![tactic(auto)]

ghost use Rattle.std.specs.Prelude.{◌≡◌, ◌+◌, ◌≤◌, ◌<◌, ◌^◌, length, take, drop, nat_abs};
ghost use Rattle.std.specs.Int.Signed.{shr_z};
ghost use Rattle.rules.specs.Symbols.{most_digits, digit_count};
ghost use Rattle.rules.specs.Numbers.{most_decimals, magnitude_limit, digits, value_of, decimals_of};
ghost use Rattle.rules.specs.Numbers.{rounded as Numbers·rounded};
ghost use Rattle.numbers.specs.Answer.{refusal_of, Promised};
ghost use Rattle.numbers.specs.Bounds.{low_fits, high_fits};

// "Sizes": how many decimals a number has at most.
pub const MOST_DECIMALS: u64 = 17;

// The number that a symbol writes, without its dot, and its count of decimals.
#[derive(Clone, Copy, PartialEq, Eq, Debug)]
pub struct Number {
    pub value: i64,
    pub decimals: u64,
}

// Why a number cannot be read at a base: out of scope (20), or too great when read (21).
#[derive(Clone, Copy, PartialEq, Eq, Debug)]
pub enum Unreadable {
    OutOfScope,
    TooGreat,
}

impl Unreadable {
    pub fn number(self) -> u64
        ensures { result ≡ refusal_of self }
    {
        match self {
            Unreadable::OutOfScope => 20,
            Unreadable::TooGreat => 21,
        }
    }
}

// A number read at a base.
pub type Reading = Result<i64, Unreadable>;

// One, multiplied by ten n times: a rule of the project (docs/PROMISES.md, "Powers of ten"), where `pow` squares.
pub fn ten_to(n: u64) -> u64
    requires { n ≤ most_decimals }
    ensures { result ≡ 10 ^ n }
{
    let mut power = 1;
    for _ in 0..n {
        power *= 10;
    }
    power
}

// The least magnitude out of scope, 10^18: one digit stands before the most decimals. A constant could neither call
// `ten_to` nor have a contract.
pub fn magnitude_limit() -> u64
    ensures { result ≡ magnitude_limit }
{
    ten_to(MOST_DECIMALS) * 10
}

// x / m towards the lesser number; the machine divides towards zero.
fn floor_div(x: i64, m: u64) -> i64
    requires { (0 < m) × (m < magnitude_limit) }
    ensures { result ≡ shr_z x m }
{
    x.div_euclid(m as i64)
}

// Halves go to the greater number, below zero too.
fn rounded(v: i64, m: u64) -> i64
    requires v_bound { nat_abs v < magnitude_limit }
    requires m_nonzero { (0 < m) × (m < magnitude_limit) }
    ensures { result ≡ Numbers·rounded v m }
{
    let half = (m / 2) as i64;
    floor_div(v + half, m)
}

fn read_in_scope(value: i64, decimals: u64, base_decimals: u64) -> Reading
    requires { (decimals ≤ most_decimals) × (base_decimals ≤ most_decimals) × (nat_abs value < magnitude_limit) }
    ensures { Promised value decimals base_decimals result }
{
    if base_decimals < decimals {
        return Ok(rounded(value, ten_to(decimals - base_decimals)));
    }
    let Some(scaled) = value.checked_mul(ten_to(base_decimals - decimals) as i64) else {
        return Err(Unreadable::TooGreat);
    };
    if scaled.unsigned_abs() < magnitude_limit() {
        Ok(scaled)
    } else {
        Err(Unreadable::TooGreat)
    }
}

// Document 01's operation: a whole number with its decimals, read at a base with its own.
pub fn read_number(value: i64, decimals: u64, base_decimals: u64) -> Reading
    ensures { Promised value decimals base_decimals result }
{
    if MOST_DECIMALS < decimals.max(base_decimals) {
        return Err(Unreadable::OutOfScope);
    }
    if magnitude_limit() <= value.unsigned_abs() {
        return Err(Unreadable::OutOfScope);
    }
    read_in_scope(value, decimals, base_decimals)
}

// Whether the reading of v, a range's low bound, is at least the base's.
pub fn low_fits(decimals: u64, base_decimals: u64, v: i64, bound: i64) -> bool
    requires decimals_le_most_decimals { (decimals ≤ most_decimals) × (base_decimals ≤ most_decimals) }
    requires v_bound { (nat_abs v < magnitude_limit) × (nat_abs bound < magnitude_limit) }
    ensures { result ≡ low_fits decimals base_decimals v bound }
{
    if base_decimals < decimals {
        return bound <= rounded(v, ten_to(decimals - base_decimals));
    }
    let p = ten_to(base_decimals - decimals);
    let below = bound - 1;
    floor_div(below, p) < v
}

// Whether the reading of v, a range's high bound, is at most the base's.
pub fn high_fits(decimals: u64, base_decimals: u64, v: i64, bound: i64) -> bool
    requires decimals_le_most_decimals { (decimals ≤ most_decimals) × (base_decimals ≤ most_decimals) }
    requires v_bound { (nat_abs v < magnitude_limit) × (nat_abs bound < magnitude_limit) }
    ensures { result ≡ high_fits decimals base_decimals v bound }
{
    if base_decimals < decimals {
        return rounded(v, ten_to(decimals - base_decimals)) <= bound;
    }
    let p = ten_to(base_decimals - decimals);
    v <= floor_div(bound, p)
}

// The whole number that its digits write.
fn digits(part: &[u8]) -> u64
    requires { digit_count part.now ≤ most_digits }
    ensures { result ≡ digits part.now 0 }
{
    let mut value = 0;
    for &b in part {
        if b.is_ascii_digit() {
            value = value * 10 + u64::from(b - b'0');
        }
    }
    value
}

// How many bytes stand behind the first dot.
fn decimals(part: &[u8]) -> u64
    ensures { result ≡ decimals_of part.now }
{
    match part.iter().position(|b| *b == b'.') {
        Some(dot) => (part.len() - dot - 1) as u64,
        None => 0,
    }
}

// The number that these bytes write.
pub fn number_of(part: &[u8]) -> Number
    requires { digit_count part.now ≤ most_digits }
    ensures { (result.value ≡ value_of part.now) × (result.decimals ≡ decimals_of part.now) }
{
    let size = digits(part) as i64;
    let value = if part.starts_with(b"-") { -size } else { size };
    Number {
        value,
        decimals: decimals(part),
    }
}

// The number symbol of `len` bytes at a place of the text.
pub fn number_at(text: &[u8], place: usize, len: usize) -> Number
    requires len_in_bounds { place + len ≤ length text.now }
    requires text_bound { digit_count (take len (drop place text.now)) ≤ most_digits }
    ensures { (result.value ≡ value_of (take len (drop place text.now)))
        × (result.decimals ≡ decimals_of (take len (drop place text.now))) }
{
    number_of(&text[place..place + len])
}

// The whole number that the digits at a place of the text write, as a TEXT length.
pub fn digits_at(text: &[u8], place: usize, len: usize) -> u64
    requires len_in_bounds { place + len ≤ length text.now }
    requires text_bound { digit_count (take len (drop place text.now)) ≤ most_digits }
    ensures { result ≡ digits (take len (drop place text.now)) 0 }
{
    digits(&text[place..place + len])
}
