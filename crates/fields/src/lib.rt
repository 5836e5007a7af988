// The fields of a record's line that are words or numbers: its kind, its flags and its base.
#![tactic(auto)]

use book::{flags, kinds};
use std::fmt;
use std::fmt::{Display, Formatter};

pub fn kind_word(kind: u8) -> &'static str {
    match kind {
        kinds::MODEL => "model",
        kinds::TOPIC => "topic",
        kinds::TOPIC_END => "end-of-topic",
        kinds::CLASS => "class",
        kinds::STRUCTURE => "structure",
        kinds::ATTRIBUTE => "attribute",
        kinds::DOMAIN => "domain",
        kinds::TEXT => "TEXT",
        kinds::MTEXT => "MTEXT",
        kinds::RANGE => "range",
        kinds::NUMERIC => "NUMERIC",
        kinds::NAMED_STRUCTURE => "of-structure",
        kinds::LIST => "enumeration",
        kinds::ELEMENT => "element",
        kinds::LIST_END => "end-of-enumeration",
        kinds::CLASS_END => "end-of-class",
        kinds::NAMED_DOMAIN => "of-domain",
        kinds::UNIT => "unit",
        kinds::UNIT_OF_NUMBER => "of-unit",
        _ => "-",
    }
}

// The words of the flags that are set, with commas between.
#[derive(Clone, Copy)]
struct Flags(u8);

impl Display for Flags {
    fn fmt<W: fmt::Write>(&self, f: &mut Formatter<W>) -> fmt::Result {
        let words = [
            (flags::ABSTRACT, "ABSTRACT"),
            (flags::FINAL, "FINAL"),
            (flags::EXTENDED, "EXTENDED"),
            (flags::MANDATORY, "MANDATORY"),
        ];
        let mut before = "";
        for (bit, word) in words {
            if self.0 & bit != 0 {
                write!(f, "{before}{word}")?;
                before = ",";
            }
        }
        if before.is_empty() {
            return f.write_str("-");
        }
        Ok(())
    }
}

// Flags and base of a record, with a blank between; no record without them has this size.
#[derive(Clone, Copy)]
pub struct Head<'a>(pub &'a [u8]);

impl Display for Head<'_> {
    fn fmt<W: fmt::Write>(&self, f: &mut Formatter<W>) -> fmt::Result {
        let record = self.0;
        if record.len() != book::HEAD_SIZE {
            return f.write_str("- -");
        }
        let set = Flags(record[book::FLAGS]);
        match ground::get4(record, book::BASE) as usize {
            state::NO_BASE => write!(f, "{set} -"),
            base => write!(f, "{set} {base}"),
        }
    }
}
