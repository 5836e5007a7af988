// What `check` tells: of a text, on standard output; of trouble, on standard error, in one line each.
#![tactic(auto)]

use answers::Answer;
use arguments::{Asked, Telling};
use console::Page;
use report::{Name, Report};
use std::fmt::{Display, InlineText};
use std::io;
use std::io::{Error, Write};

// As many bytes as any error's text has.
const REASON: usize = 256;

// ---- trouble

// At once, with as much as there is room for in a page. Where that fails, there is nobody to tell.
fn tell(rt: &impl Print, trouble: impl Display + Drop) {
    let mut page = Page::new(rt);
    if write!(page, "check: {trouble}\n").is_ok() {
        let _ = page.flush();
    }
}

// A name, and what the system says of it, without its number, which the library puts behind in brackets.
pub fn tell_trouble(rt: &impl Print, name: &[u8], e: Error) {
    let name = Name(name);
    let text = InlineText::<{ REASON }>::of(e);
    let all = text.as_str();
    let reason = match all.split_once(" (os error ") {
        None => all,
        Some((reason, _)) => reason,
    };
    tell(rt, format_args!("{name}: {reason}"));
}

// The option is no option.
pub fn tell_unknown(rt: &impl Print, option: &[u8]) {
    let option = Name(option);
    tell(
        rt,
        format_args!(
            "there is no option {option}: see check --help (a file of this name goes behind --)"
        ),
    );
}

pub fn tell_both(rt: &impl Print) {
    tell(rt, "--list and --quiet exclude each other");
}

// ---- a text

// For a person where files are named, and else as the documents have it; then the records of an accepted text, if they
// are asked for.
pub fn tell_answer(
    rt: &impl Print,
    name: &[u8],
    text: &[u8],
    book: &[u8],
    answer: Answer,
    asked: Asked,
) -> io::Result<()> {
    let mut page = Page::new(rt);
    if asked.named {
        let name = Name(name);
        let report = Report { name, text, answer };
        write!(page, "{report}")?;
    } else {
        console::put_answer(&mut page, answer)?;
        page.write_all(b"\n")?;
    }
    if let (Ok(kept), Telling::Records) = (answer, asked.telling) {
        let n = kept.length.min(book.len());
        lines::list(&mut page, text, &book[..n])?;
    }
    page.flush()
}
