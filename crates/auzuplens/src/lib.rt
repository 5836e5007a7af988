// The four public operations, and the five functions by which C and Rust call them.
#![tactic(auto)]

ghost use Rattle.std.specs.Prelude.{◌≡◌, false, ◌+◌, ◌*◌, ◌^◌, ◌≤◌, ◌<◌, length};
ghost use Rattle.rules.specs.Numbers.{read_number, read_refusal, read_value};
ghost use Rattle.rules.specs.Show.{find_record, show_name};
ghost use Rattle.rules.specs.Check.{lent, check};
ghost use Rattle.rules.specs.Promise.{Promise};
ghost use Rattle.numbers.specs.Answer.{Promised};
ghost use Rattle.records.specs.Finding.{found_at};
ghost use Rattle.records.specs.Showing.{Shows};
ghost use Rattle.answers.specs.Answers.{answer_of, full};
ghost use Rattle.answers.specs.Handing.{handed};
ghost use Rattle.records.specs.Packing.{packed_found, packed_part};
ghost use Rattle.state.specs.Desks.{Lengths};
ghost use Rattle.running.specs.Trying.{Tried};
ghost use Rattle.auzuplens.specs.Rooms.{RoomFor};

use answers::{Answer, Refusal};
use numbers::{Reading, Unreadable};

// The text is tried with arrays of these sizes and the first bytes of the buffer.
#[inline(never)]
fn check_sized<
    const BOOK: usize,
    const INDEX: usize,
    const ROWS: usize,
    const CHAINS: usize,
    const SCRATCH: usize,
    const TABLES: usize,
>(text: &[u8], book: &mut [u8]) -> Answer
    requires loan { Lengths (length text.now) BOOK SCRATCH TABLES }
    requires room { RoomFor BOOK INDEX ROWS CHAINS }
    requires small { (INDEX < 2 ^ 32) × (ROWS < 2 ^ 32) × (CHAINS < 2 ^ 32) × (TABLES < 2 ^ 32) }
    ensures { Tried text.now (length book.old) BOOK (answer_of result) book.new }
{
    let mut index = [0u16; INDEX];
    let mut rows = [0u16; ROWS];
    let mut chains = [0u16; CHAINS];
    let mut scratch = [0u8; SCRATCH];
    let mut tables = [0u32; TABLES];
    running::check_with(
        text,
        book,
        BOOK,
        &mut index,
        &mut rows,
        &mut chains,
        &mut scratch,
        &mut tables,
    )
}

// Texts to so many bytes, with a buffer of so many: there is room in it for so many definitions, or so many attributes.
const SMALL: usize = 1024;

const SMALL_BOOK: usize = 4096;

const SMALL_INDEX: usize = (SMALL_BOOK / book::TOPIC_SIZE + 3) * names::WIDTH;

const SMALL_ROWS: usize = (SMALL_BOOK / book::HEAD_SIZE + 2) * members::WIDTH;

const SMALL_CHAINS: usize = names::KEYS + names::KEYS + SMALL_BOOK / book::TOPIC_SIZE + 3;

const SMALL_SCRATCH: usize = 3 * SMALL;

const SMALL_TABLES: usize = (SMALL_SCRATCH + SMALL_BOOK) / 2 + 7;

const MEDIUM: usize = 5120;

const MEDIUM_BOOK: usize = 16384;

const MEDIUM_INDEX: usize = (MEDIUM_BOOK / book::TOPIC_SIZE + 3) * names::WIDTH;

const MEDIUM_ROWS: usize = (MEDIUM_BOOK / book::HEAD_SIZE + 2) * members::WIDTH;

const MEDIUM_CHAINS: usize = names::KEYS + names::KEYS + MEDIUM_BOOK / book::TOPIC_SIZE + 3;

const MEDIUM_SCRATCH: usize = 3 * MEDIUM;

const MEDIUM_TABLES: usize = (MEDIUM_SCRATCH + MEDIUM_BOOK) / 2 + 7;

// All texts, and all books.
pub const LARGE: usize = 65535;

const LARGE_INDEX: usize = (LARGE / book::TOPIC_SIZE + 3) * names::WIDTH;

const LARGE_ROWS: usize = (LARGE / book::HEAD_SIZE + 2) * members::WIDTH;

const LARGE_CHAINS: usize = names::KEYS + names::KEYS + LARGE / book::TOPIC_SIZE + 3;

const LARGE_SCRATCH: usize = 3 * LARGE;

const LARGE_TABLES: usize = (LARGE_SCRATCH + LARGE) / 2 + 7;

// Smaller texts, with smaller arrays, which their book may not fit.
fn check_smaller(text: &[u8], book: &mut [u8]) -> Answer
    requires { length text.now ≤ 5120 }
    ensures { full (answer_of result) ≡ false
        → Promise text.now (lent (length book.old)) (answer_of result) book.new }
{
    if text.len() <= SMALL {
        return check_sized::<
            SMALL_BOOK,
            SMALL_INDEX,
            SMALL_ROWS,
            SMALL_CHAINS,
            SMALL_SCRATCH,
            SMALL_TABLES,
        >(text, book);
    }
    check_sized::<
        MEDIUM_BOOK,
        MEDIUM_INDEX,
        MEDIUM_ROWS,
        MEDIUM_CHAINS,
        MEDIUM_SCRATCH,
        MEDIUM_TABLES,
    >(text, book)
}

fn check_large(text: &[u8], book: &mut [u8]) -> Answer
    requires { length text.now ≤ 65535 }
    ensures { Promise text.now (lent (length book.old)) (answer_of result) book.new }
{
    check_sized::<LARGE, LARGE_INDEX, LARGE_ROWS, LARGE_CHAINS, LARGE_SCRATCH, LARGE_TABLES>(
        text, book,
    )
}

// Whether the text keeps every rule of document 01 and of the requests that are built; a refusal has its number, place,
// line and column. The book is written to the lent buffer, with zeros behind it; after a refusal the whole buffer is
// zero.
// Smaller texts are tried with smaller arrays, and anew where their book does not fit these.
pub fn check_text(text: &[u8], book: &mut [u8]) -> Answer
    ensures { Promise text.now (lent (length book.old)) (answer_of result) book.new }
{
    let n = text.len();
    if LARGE < n {
        ground::clear(book);
        return Err(Refusal {
            number: 1,
            place: 0,
            line: 1,
            column: 1,
        });
    }
    if MEDIUM < n {
        return check_large(text, book);
    }
    let a = check_smaller(text, book);
    if answers::is_full(a) {
        return check_large(text, book);
    }
    a
}

// A signed whole number with its decimals, read at the base's decimals.
pub fn read_number(value: i64, decimals: u64, base_decimals: u64) -> Reading
    ensures { Promised value decimals base_decimals result }
{
    numbers::read_number(value, decimals, base_decimals)
}

// Where the record with this number begins in the book, or that it is not there: it or one before it does not exist, is
// cut off or of no kind.
pub fn find_record(book: &[u8], record: usize) -> Option<usize>
    ensures { found_at result ≡ find_record book.now «record» }
{
    records::find_record(book, record)
}

// The part of the text that is the name of the record that is read from this byte of the book on; the empty part at the
// text's start where there is none.
pub fn show_name<'a>(text: &'a [u8], book: &[u8], beginning: usize) -> &'a [u8]
    ensures { Shows text.entry book.now beginning result }
{
    records::show_name(text, book, beginning)
}

// ---- for C and Rust: what the static library `auzuplens_c` exports under the same names
const NONE: u64 = 18446744073709551615;

// The answer's numbers in their order: number (0 where the text is accepted), place, line, column, the book's length,
// definitions, and two that are 0 in every answer as yet.
#[unsafe(no_mangle)]
pub extern "C" fn auzuplens_check(text: &[u8], book: &mut [u8], answer: &mut [u64; 8])
    ensures { (answer.new ≡ handed (check text.now (lent (length book.old))).answer)
        × (book.new ≡ (check text.now (lent (length book.old))).buffer) }
{
    let a = check_text(text, book);
    answers::hand_out(a, answer);
}

// 0 after a refusal.
#[unsafe(no_mangle)]
pub extern "C" fn auzuplens_reading(value: i64, decimals: u64, base_decimals: u64) -> i64
    ensures { result ≡ read_value (read_number value decimals base_decimals) }
{
    read_number(value, decimals, base_decimals).unwrap_or(0)
}

// 0, 20 or 21.
#[unsafe(no_mangle)]
pub extern "C" fn auzuplens_reading_refusal(value: i64, decimals: u64, base_decimals: u64) -> u64
    ensures { result ≡ read_refusal (read_number value decimals base_decimals) }
{
    read_number(value, decimals, base_decimals).map_or_else(Unreadable::number, |_| 0)
}

// Where the record begins; 2^64 - 1 where it is not there.
#[unsafe(no_mangle)]
pub extern "C" fn auzuplens_find(book: &[u8], record: u64) -> u64
    ensures { result ≡ packed_found (find_record book.now «record») }
{
    find_record(book, record as usize).map_or(NONE, |at| at as u64)
}

#[unsafe(no_mangle)]
pub extern "C" fn auzuplens_show(text: &[u8], book: &[u8], beginning: u64) -> u64
    ensures { result ≡ packed_part (show_name text.now book.now beginning) }
{
    let p = records::name_part(text, book, beginning as usize);
    (p.offset % 4294967296) as u64 * 256 + (p.len % 256) as u64
}
