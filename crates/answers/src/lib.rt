// The answer of a check, what it leaves in the buffer, and the numbers in which it is handed to C and Rust.
#![tactic(auto)]

ghost use Rattle.std.specs.Prelude.{◌≡◌, List, ℕ, ◌≤◌, length, take, Some, Ok};
ghost use Rattle.rules.specs.Book.{padded};
ghost use Rattle.rules.specs.Declarations as D;
ghost use Rattle.state.specs.declared.State.{State};
ghost use Rattle.state.specs.Keeping.{Keeps};
ghost use Rattle.answers.specs.Answers.{accepted_in, answer_of, kept_of, full};
ghost use Rattle.answers.specs.Handing.{handed};
ghost use Rattle.answers.specs.Showing.{shown_accepted, shown_refusal};

use state::Extent;
use std::fmt;
use std::fmt::{Display, Formatter};

// The book's length and the count of its definitions.
#[derive(Clone, Copy, Debug, PartialEq, Eq)]
pub struct Accepted {
    pub length: usize,
    pub definitions: usize,
}

// The number of a refusal, its place, and that place's line and column.
#[derive(Clone, Copy, Debug, PartialEq, Eq)]
pub struct Refusal {
    pub number: u8,
    pub place: usize,
    pub line: usize,
    pub column: usize,
}

pub type Answer = Result<Accepted, Refusal>;

// As the documents have it, in one line.
impl Display for Accepted {
    ghost output = { λ a. Some (shown_accepted a) };

    fn fmt<W: fmt::Write>(&self, f: &mut Formatter<W>) -> fmt::Result {
        let length = self.length;
        let definitions = self.definitions;
        write!(f, "ok {length} {definitions}")
    }
}

// Likewise.
impl Display for Refusal {
    ghost output = { λ r. Some (shown_refusal r) };

    fn fmt<W: fmt::Write>(&self, f: &mut Formatter<W>) -> fmt::Result {
        let number = self.number;
        let place = self.place;
        let line = self.line;
        let column = self.column;
        write!(f, "refused {number} {place} {line} {column}")
    }
}

impl Accepted {
    // What is answered at the end of a text that kept every rule.
    pub fn of(book: Extent) -> Accepted
        ensures { (st : State) (s : D.State) (t o x z y hs : List ℕ) → st.extent ≡ book → Keeps t s st o x z y hs
            → Ok result ≡ accepted_in s }
    {
        Accepted {
            length: book.used,
            definitions: book.definitions,
        }
    }
}

// The book, then zeros; zeros after a refusal.
pub fn finish(book: &mut [u8], a: Answer)
    requires { kept_of a ≤ length book.old }
    ensures { book.new ≡ padded (take (kept_of a) book.old) (length book.old) }
{
    let n = a.map_or(0, |kept| kept.length);
    ground::clear(&mut book[n..]);
}

// Whether the book does not fit the buffer.
pub fn is_full(a: Answer) -> bool
    ensures { result ≡ full (answer_of a) }
{
    matches!(a, Err(Refusal { number: 19, .. }))
}

// The answer in eight numbers; what it does not have is 0.
pub fn hand_out(a: Answer, answer: &mut [u64; 8])
    ensures { answer.new ≡ handed (answer_of a) }
{
    match a {
        Ok(
            Accepted {
                length,
                definitions,
            },
        ) => {
            *answer = [0, 0, 0, 0, length as u64, definitions as u64, 0, 0];
        }
        Err(refusal) => {
            *answer = [
                refusal.number as u64,
                refusal.place as u64,
                refusal.line as u64,
                refusal.column as u64,
                0,
                0,
                0,
                0,
            ];
        }
    }
}
