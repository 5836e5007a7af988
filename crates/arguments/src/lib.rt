// The words behind `check`: options, and names of files.
#![tactic(auto)]

use std::env::FillError;
use std::rt::Env;

// As many bytes as any name of a file has.
pub const ROOM: usize = 4096;

// What an argument is where options may stand. `-` is a name, that of standard input.
#[derive(Clone, Copy, PartialEq, Eq)]
enum Word {
    Name,
    List,
    Quiet,
    End,
    Unknown,
}

impl Word {
    fn of(word: &[u8]) -> Word {
        match word {
            b"--list" => Word::List,
            b"--quiet" => Word::Quiet,
            b"--" => Word::End,
            [b'-', _, ..] => Word::Unknown,
            _ => Word::Name,
        }
    }
}

// What is told of a text: its answer, that with the records of an accepted text, or nothing.
#[derive(Clone, Copy, PartialEq, Eq)]
pub enum Telling {
    Answer,
    Records,
    Nothing,
}

// What the arguments ask for: what is told, and whether files are named; how many arguments there are, and which of
// them is `--`, the end of the options.
#[derive(Clone, Copy)]
pub struct Asked {
    pub telling: Telling,
    pub named: bool,
    pub count: usize,
    pub end: Option<usize>,
}

// The argument that is no option, or that the records and nothing are asked for.
#[derive(Clone, Copy)]
pub enum Misuse {
    Unknown(usize),
    Both,
}

impl Asked {
    // Whether the argument i is the name of a file.
    pub fn is_name(self, i: usize, word: &[u8]) -> bool {
        match self.end {
            Some(end) if end <= i => end < i,
            _ => Word::of(word) == Word::Name,
        }
    }
}

// How many arguments there are, the program's own name among them.
fn count_of(rt: &impl Env) -> usize {
    let mut byte = [0u8; 1];
    (0..usize::MAX)
        .position(|i| matches!(rt.arg(i, &mut byte), Err(FillError::NotPresent)))
        .unwrap_or(usize::MAX)
}

// What the argument i is. One that is longer than any name is a name.
fn word_of(rt: &impl Env, i: usize) -> Word {
    let mut word = [0u8; ROOM];
    let n = rt.arg(i, &mut word).unwrap_or(0);
    Word::of(&word[..n])
}

// All arguments, up to `--` or the first unknown option.
pub fn all(rt: &impl Env) -> Result<Asked, Misuse> {
    let count = count_of(rt);
    let mut list = false;
    let mut quiet = false;
    let mut named = false;
    let mut end = None;
    for i in 1..count {
        match word_of(rt, i) {
            Word::Name => named = true,
            Word::List => list = true,
            Word::Quiet => quiet = true,
            Word::Unknown => return Err(Misuse::Unknown(i)),
            Word::End => {
                named |= i + 1 < count;
                end = Some(i);
                break;
            }
        }
    }
    let telling = match (list, quiet) {
        (true, true) => return Err(Misuse::Both),
        (true, false) => Telling::Records,
        (false, true) => Telling::Nothing,
        (false, false) => Telling::Answer,
    };
    Ok(Asked {
        telling,
        named,
        count,
        end,
    })
}
