// Any bytes read as a book: where a record begins and where it ends, and the name that it shows.
#![tactic(auto)]

ghost use Rattle.std.specs.Prelude.{◌≡◌};
ghost use Rattle.rules.specs.Show.{size_of, is_named, find_record, show_name};
ghost use Rattle.records.specs.Finding.{found_at, record_end};
ghost use Rattle.records.specs.Showing.{part_of, Shows};

use book::written_name;
use ground::Name;

// ---- what the kind of a record fixes
// The sizes of records by kind, 0 to 19. Tables here: a `match` on bytes that may be any becomes jumps, and showing
// names then takes 1.7 times the time.
static SIZES: [usize; 20] = [
    0, // 0 end of the book
    book::MODEL_SIZE, // 1 model
    book::TOPIC_SIZE, // 2 topic
    book::TOPIC_END_SIZE, // 3 end of topic
    book::HEAD_SIZE, // 4 class
    book::HEAD_SIZE, // 5 structure
    book::HEAD_SIZE, // 6 attribute
    book::HEAD_SIZE, // 7 domain
    book::LENGTH_SIZE, // 8 TEXT
    book::LENGTH_SIZE, // 9 MTEXT
    book::RANGE_SIZE, // 10 range
    book::NUMERIC_SIZE, // 11 NUMERIC
    book::LENGTH_SIZE, // 12 structure named
    book::LIST_SIZE, // 13 enumeration
    book::ELEMENT_SIZE, // 14 element
    book::LIST_END_SIZE, // 15 end of enumeration
    book::CLASS_END_SIZE, // 16 end of class or structure
    book::LENGTH_SIZE, // 17 domain named
    book::HEAD_SIZE, // 18 unit
    book::LENGTH_SIZE, // 19 unit of the number before
];

// Zero for what is no kind.
#[tactic(auto, unfolding(rules::specs::Show::size_of))]
fn record_size(kind: u8) -> usize
    ensures { result ≡ size_of kind }
{
    SIZES.get(usize::from(kind)).copied().unwrap_or(0)
}

// The kinds 0 to 18 that have names.
static NAMED: [bool; 19] = [
    false, // 0 end of the book
    true, // 1 model
    true, // 2 topic
    false, // 3 end of topic
    true, // 4 class
    true, // 5 structure
    true, // 6 attribute
    true, // 7 domain
    false, // 8 TEXT
    false, // 9 MTEXT
    false, // 10 range
    false, // 11 NUMERIC
    false, // 12 structure named
    false, // 13 enumeration
    true, // 14 element
    false, // 15 end of enumeration
    false, // 16 end of class or structure
    false, // 17 domain named
    true, // 18 unit
];

#[tactic(auto, unfolding(rules::specs::Show::is_named))]
fn has_name(kind: u8) -> bool
    ensures { result ≡ is_named kind }
{
    NAMED.get(usize::from(kind)).copied().unwrap_or(false)
}

// ---- the record at a place
// Where it ends, and the next one begins if there is one.
fn record_end(book: &[u8], at: usize) -> Option<usize>
    ensures { found_at result ≡ record_end book.now at }
{
    let kind = *book.get(at)?;
    let size = record_size(kind);
    if size == 0 || book.len() - at < size {
        return None;
    }
    Some(at + size)
}

// A record reader: the book, and the position at which it reads. No Iterator: document 01 names this form
// (docs/PROMISES.md, "The shape of each place").
#[derive(Clone, Copy)]
pub struct RecordReader<'a> {
    pub book: &'a [u8],
    pub position: usize,
}

pub fn reader<'a>(book: &'a [u8], position: usize) -> RecordReader<'a>
    ensures { (result.book ≡ book.entry) × (result.position ≡ position) }
{
    RecordReader { book, position }
}

impl<'a> RecordReader<'a> {
    // Where the record that it reads ends.
    pub fn end(self) -> Option<usize>
        ensures { found_at result ≡ record_end self.entry.book.now self.entry.position }
    {
        record_end(self.book, self.position)
    }
}

// The same for a caller that keeps book and position apart.
pub fn end_from(book: &[u8], position: usize) -> Option<usize>
    ensures { found_at result ≡ record_end book.now position }
{
    reader(book, position).end()
}

// ---- finding: where the record with this number begins
pub fn find_record(book: &[u8], k: usize) -> Option<usize>
    ensures { found_at result ≡ find_record book.now k }
{
    let mut at = 0;
    for _ in 0..k {
        at = record_end(book, at)?;
    }
    record_end(book, at)?;
    Some(at)
}

// ---- showing: the name of the record that is read from a byte of the book on, wherever that is; where there is none,
// the empty part at the text's start
pub fn name_part(text: &[u8], book: &[u8], beginning: usize) -> Name
    ensures { result ≡ part_of (show_name text.now book.now beginning) }
{
    if record_end(book, beginning).is_some() && has_name(book[beginning]) {
        let name = written_name(book, beginning);
        if name.offset + name.len <= text.len() {
            return name;
        }
    }
    Name { offset: 0, len: 0 }
}

pub fn show_name<'a>(text: &'a [u8], book: &[u8], beginning: usize) -> &'a [u8]
    ensures { Shows text.entry book.now beginning result }
{
    let name = name_part(text, book, beginning);
    let start = name.offset;
    let end = start + name.len;
    &text[start..end]
}
