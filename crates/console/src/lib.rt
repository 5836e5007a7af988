// What the programs share: a text read from a reader, output by way of a page, an answer in the documents' form.
#![tactic(auto)]

ghost use Rattle.std.specs.Prelude.{◌≡◌, ◌≤◌, None, IfOk, OnOk};
ghost use Rattle.std.specs.Io.KnownBytes.{Appends, Keeps};
ghost use Rattle.io.specs.Counts.{IsPrefixLen};
ghost use Rattle.answers.specs.Showing.{shown};

use answers::Answer;
use std::io::{Read, Result, Write};

// One byte more than the longest text has.
pub const ROOM: usize = 65536;

// As many bytes as are written at once.
const PAGE: usize = 8192;

// The text that a reader has: until there is no room or nothing more comes; how many bytes it has.
// A loop by hand: `read_exact` fails at the text's end, and `read_to_end` needs a heap.
pub fn read_text(from: &mut impl Read, text: &mut [u8]) -> Result<usize>
    ensures { IfOk result (λ n. IsPrefixLen n text.new) }
{
    let mut done = 0;
    while done < text.len() {
        let n = from.read(&mut text[done..])?;
        if n == 0 {
            break;
        }
        done += n;
    }
    Ok(done)
}

// What is to be written, until a page of it is full.
#[derive(Drop)]
pub struct Page<'a, P> {
    to: &'a P,
    bytes: [u8; PAGE],
    filled: usize,
    ghost within: { filled ≤ 8192 },
}

impl<P: Print> Page<'_, P> {
    pub fn new(to: &P) -> Page<'_, P>
        ensures { result.filled ≡ 0 }
    {
        Page {
            to,
            bytes: [0; PAGE],
            filled: 0,
        }
    }
}

impl<P: Print> Write for Page<'_, P> {
    fn write(&mut self, buf: &[u8]) -> Result<usize> {
        self.write_all(buf)?;
        Ok(buf.len())
    }

    // What is filled is written, and the page is empty again.
    fn flush(&mut self) -> Result<()>
        ensures bytes { Keeps None None }
        ensures empty { OnOk result (self.new.filled ≡ 0) }
    {
        let all = &self.bytes[..];
        self.to.write_all(&all[..self.filled])?;
        self.filled = 0;
        Ok(())
    }

    // A full page is written once: a part of it may be out where that failed.
    fn write_all(&mut self, buf: &[u8]) -> Result<()> {
        for &b in buf {
            if self.filled == PAGE {
                self.flush()?;
            }
            self.bytes[self.filled] = b;
            self.filled += 1;
        }
        Ok(())
    }
}

// In one line, whose end is left to the caller.
pub fn put_answer<W: Write>(page: &mut W, a: Answer) -> Result<()>
    ensures { OnOk result (Appends (W.contents page.old) (W.contents page.new) (shown a)) }
{
    match a {
        Ok(kept) => write!(page, "{kept}"),
        Err(refusal) => write!(page, "{refusal}"),
    }
}
