// The program behind `check`: it checks the files that are named, or the text on standard input, and writes what it
// finds to standard output. Its exit status is the one that `check` is to have.
#![tactic(auto)]

use arguments::{Asked, Misuse, Telling};
use std::fmt::InlineText;
use std::fs::File;
use std::io::{Error, ErrorKind, Read};
use std::process::ExitCode;
use std::rt::Env;

// The system's numbers of two errors: a name that is longer than any, and bytes that are no text.
const ENAMETOOLONG: i32 = 36;

const EILSEQ: i32 = 84;

// As many bytes as a folder, a slash and a number have.
const PATH: usize = 4128;

// How a check ends, the greater before the less; after the last two no file is looked at.
#[derive(Clone, Copy, PartialEq, Eq, PartialOrd, Ord)]
enum Status {
    Accepted,
    Refused,
    Trouble,
    Stopped,
    Unread,
}

// The status that `check` is to have; the last is that of a program which is ended as nobody reads what it writes.
impl From<Status> for ExitCode {
    fn from(status: Status) -> ExitCode {
        match status {
            Status::Accepted => ExitCode::from(0),
            Status::Refused => ExitCode::from(1),
            Status::Trouble | Status::Stopped => ExitCode::from(2),
            Status::Unread => ExitCode::from(141),
        }
    }
}

fn check(rt: &HostRuntime, name: &[u8], text: &[u8], asked: Asked) -> Status {
    let mut book = [0u8; auzuplens::LARGE];
    let answer = auzuplens::check_text(text, &mut book);
    let status = match answer {
        Ok(_) => Status::Accepted,
        Err(_) => Status::Refused,
    };
    if asked.telling == Telling::Nothing {
        return status;
    }
    match telling::tell_answer(rt, name, text, &book, answer, asked) {
        Ok(()) => status,
        // nobody reads on, of which nothing is told
        Err(e) if e.kind() == ErrorKind::BrokenPipe => Status::Unread,
        Err(e) => {
            telling::tell_trouble(&rt.stderr(), b"standard output", e);
            Status::Stopped
        }
    }
}

// ---- files

fn trouble(rt: &HostRuntime, name: &[u8], e: Error) -> Status {
    telling::tell_trouble(&rt.stderr(), name, e);
    Status::Trouble
}

fn check_input(rt: &HostRuntime, from: &mut impl Read, name: &[u8], asked: Asked) -> Status {
    let mut text = [0u8; console::ROOM];
    match console::read_text(from, &mut text) {
        Err(e) => trouble(rt, name, e),
        Ok(n) => check(rt, name, &text[..n], asked),
    }
}

fn check_opened(rt: &HostRuntime, path: &str, name: &[u8], asked: Asked) -> Status {
    match File::open(rt, path) {
        Err(e) => trouble(rt, name, e),
        Ok(mut file) => check_input(rt, &mut file, name, asked),
    }
}

// The argument i whose name is no UTF-8, which the library can't open: by its link in the folder that `check` names.
fn check_linked(rt: &HostRuntime, i: usize, name: &[u8], asked: Asked) -> Status {
    let mut folder = [0u8; arguments::ROOM];
    let n = rt.var("AUZUPLENS_LINKS", &mut folder).unwrap_or(0);
    match str::from_utf8(&folder[..n]) {
        Ok(folder) if !folder.is_empty() => {
            let path = InlineText::<{ PATH }>::of(format_args!("{folder}/{i}"));
            check_opened(rt, path.as_str(), name, asked)
        }
        _ => trouble(rt, name, Error::from_raw_os_error(EILSEQ)),
    }
}

fn check_file(rt: &HostRuntime, i: usize, name: &[u8], asked: Asked) -> Status {
    match str::from_utf8(name) {
        Ok("-") => check_input(rt, &mut rt.stdin(), name, asked),
        Ok(path) => check_opened(rt, path, name, asked),
        Err(_) => check_linked(rt, i, name, asked),
    }
}

fn check_argument(rt: &HostRuntime, i: usize, asked: Asked) -> Status {
    let mut word = [0u8; arguments::ROOM];
    match rt.arg(i, &mut word) {
        Err(_) => {
            // longer than any name: its beginning tells which it is
            let m = word.len().min(64);
            trouble(rt, &word[..m], Error::from_raw_os_error(ENAMETOOLONG))
        }
        Ok(n) if asked.is_name(i, &word[..n]) => check_file(rt, i, &word[..n], asked),
        Ok(_) => Status::Accepted,
    }
}

fn check_files(rt: &HostRuntime, asked: Asked) -> Status {
    let mut status = Status::Accepted;
    for i in 1..asked.count {
        status = status.max(check_argument(rt, i, asked));
        if Status::Trouble < status {
            break;
        }
    }
    status
}

// ---- what the arguments ask for

fn refuse(rt: &HostRuntime, misuse: Misuse) -> Status {
    match misuse {
        Misuse::Unknown(i) => {
            let mut word = [0u8; arguments::ROOM];
            let n = rt.arg(i, &mut word).unwrap_or(0);
            telling::tell_unknown(&rt.stderr(), &word[..n]);
        }
        Misuse::Both => telling::tell_both(&rt.stderr()),
    }
    Status::Trouble
}

fn run(rt: &HostRuntime) -> Status {
    match arguments::all(rt) {
        Err(misuse) => refuse(rt, misuse),
        Ok(asked) if asked.named => check_files(rt, asked),
        Ok(asked) => check_input(rt, &mut rt.stdin(), b"standard input", asked),
    }
}

fn main(rt: HostRuntime) -> ExitCode {
    run(&rt).into()
}
