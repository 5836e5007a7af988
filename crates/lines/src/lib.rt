// A line for each record of a book: number, kind, name, flags, base and type, with `-` for what a record does not have.
#![tactic(auto)]

ghost use Rattle.std.specs.Prelude.{◌≡◌, ◌≤◌};
ghost use Rattle.std.proofs.Math.Option.{some};
ghost use Rattle.rules.specs.Show.{find_record};
ghost use Rattle.records.specs.Finding.{record_end};

use fields::{Head, kind_word};
use fitting::Typing;
use std::fmt;
use std::fmt::{Display, Formatter};
use std::io::{Result, Write};

// A bound as a model writes it; the book has it without its dot.
#[derive(Clone, Copy)]
struct Bound {
    value: i64,
    decimals: u64,
}

impl Display for Bound {
    fn fmt<W: fmt::Write>(&self, f: &mut Formatter<W>) -> fmt::Result {
        let value = self.value;
        let decimals = self.decimals;
        if decimals == 0 || numbers::MOST_DECIMALS < decimals {
            return write!(f, "{value}");
        }
        let sign = if value < 0 { "-" } else { "" };
        let size = value.unsigned_abs();
        let power = numbers::ten_to(decimals);
        let whole = size / power;
        let part = size % power;
        let width = decimals as usize;
        write!(f, "{sign}{whole}.{part:0width$}")
    }
}

fn is_final(record: &[u8]) -> bool {
    record.len() == book::LIST_SIZE && record[book::LIST_FINAL] == 1
}

// What stands of a record's type in its line.
#[derive(Clone, Copy)]
struct Type<'a>(&'a [u8]);

impl Display for Type<'_> {
    fn fmt<W: fmt::Write>(&self, f: &mut Formatter<W>) -> fmt::Result {
        let record = self.0;
        match fitting::reading::typing_at(record, 0) {
            Typing::Text {
                length: Some(length),
                ..
            } => write!(f, "{length}"),
            Typing::Range {
                decimals,
                low,
                high,
                ..
            } => {
                let low = Bound {
                    value: low,
                    decimals,
                };
                let high = Bound {
                    value: high,
                    decimals,
                };
                write!(f, "{low}..{high}")
            }
            Typing::Enumeration { .. } if is_final(record) => f.write_str("FINAL"),
            // the record that it names: a structure's, a domain's or a unit's
            Typing::Structure if record.len() == book::LENGTH_SIZE => {
                let named = ground::get4(record, 1);
                write!(f, "{named}")
            }
            _ => f.write_str("-"),
        }
    }
}

// The line of the record with this number, which stands from its beginning to its end.
fn put_record<W: Write>(
    page: &mut W,
    number: usize,
    text: &[u8],
    book: &[u8],
    beginning: usize,
    end: usize,
) -> Result<()>
    requires number_value { find_record book.now number ≡ some beginning }
    requires beginning_value { record_end book.now beginning ≡ some end }
{
    let kind = kind_word(book[beginning]);
    write!(page, "{number} {kind} ")?;
    let name = records::show_name(text, book, beginning);
    page.write_all(if name.is_empty() { b"-" } else { name })?;
    let record = &book[beginning..end];
    let head = Head(record);
    let type_ = Type(record);
    write!(page, " {head} {type_}\n")
}

// A line for each record, with one walk through the book. A loop by hand: its invariant is what `put_record` requires.
pub fn list(page: &mut impl Write, text: &[u8], book: &[u8]) -> Result<()> {
    let mut beginning = 0;
    let mut number = 0;
    while let Some(end) = records::end_from(book, beginning) {
        put_record(page, number, text, book, beginning, end)?;
        beginning = end;
        number += 1;
    }
    Ok(())
}
