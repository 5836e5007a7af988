// What a person reads of an answer: a line that editors and build servers understand and, of a refusal, the line of the
// text with a caret under the column.
#![tactic(auto)]

mod sentences;
mod shown;

ghost use Rattle.std.specs.Prelude.{◌≡◌, ◌-◌, ◌≤◌};
ghost use Rattle.report.specs.Around.{Around};

use answers::{Accepted, Answer, Refusal};
use sentences::sentence;
use shown::{Shown, Under};
use std::fmt;
use std::fmt::{Display, Formatter};
use std::ops::Range;

// How long a line may be to be shown whole; how many bytes of a longer one are shown, and how many of them stand before
// the caret where both ends are cut off.
const WHOLE: usize = 78;

const WIDTH: usize = 72;

const BEFORE: usize = 36;

// Where the line of a place begins.
fn line_begin(place: usize, column: usize) -> usize
    ensures { result ≡ place - (column - 1) }
{
    place.saturating_sub(column.saturating_sub(1))
}

// A line, or of a longer one the part around a place.
fn around(begin: usize, place: usize, end: usize) -> Range<usize>
    requires begin_le_place { begin ≤ place }
    requires place_le_end { place ≤ end }
    ensures { Around begin place end result.start result.end }
{
    if end - begin <= WHOLE {
        return begin..end;
    }
    if place - begin <= BEFORE {
        return begin..begin + WIDTH;
    }
    if end - place <= WIDTH - BEFORE {
        return end - WIDTH..end;
    }
    place - BEFORE..place - BEFORE + WIDTH
}

// The line of a place, cut around it where it is long, and a caret under it.
#[derive(Clone, Copy)]
struct Excerpt<'a> {
    text: &'a [u8],
    place: usize,
    column: usize,
}

impl Display for Excerpt<'_> {
    fn fmt<W: fmt::Write>(&self, f: &mut Formatter<W>) -> fmt::Result {
        let text = self.text;
        let at = self.place.min(text.len());
        let begin = line_begin(at, self.column);
        let end = scans::line_end(text, at);
        let part = around(begin, at, end);
        let (dots, blanks) = if begin < part.start {
            ("...", "   ")
        } else {
            ("", "")
        };
        let more = if part.end < end { "..." } else { "" };
        let line = Shown(&text[part.start..part.end]);
        let under = Under(&text[part.start..at]);
        write!(f, "{dots}{line}{more}\n{blanks}{under}^\n")
    }
}

// The name of a file, of which an empty one is to be seen too.
#[derive(Clone, Copy)]
pub struct Name<'a>(pub &'a [u8]);

impl Display for Name<'_> {
    fn fmt<W: fmt::Write>(&self, f: &mut Formatter<W>) -> fmt::Result {
        if self.0.is_empty() {
            return f.write_str("''");
        }
        write!(f, "{}", Shown(self.0))
    }
}

// The name of what was checked, and its answer, as editors look for it.
#[derive(Clone, Copy)]
pub struct Report<'a> {
    pub name: Name<'a>,
    pub text: &'a [u8],
    pub answer: Answer,
}

impl Display for Report<'_> {
    fn fmt<W: fmt::Write>(&self, f: &mut Formatter<W>) -> fmt::Result {
        let name = self.name;
        match self.answer {
            Ok(Accepted { definitions, .. }) => write!(
                f,
                "{name}: ok, {definitions} definitions\n"
            ),
            Err(
                Refusal {
                    number,
                    place,
                    line,
                    column,
                },
            ) => {
                let why = sentence(number);
                let excerpt = Excerpt {
                    text: self.text,
                    place,
                    column,
                };
                write!(
                    f,
                    "{name}:{line}:{column}: refused {number}: {why}\n{excerpt}"
                )
            }
        }
    }
}
