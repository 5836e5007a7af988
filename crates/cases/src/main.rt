// Runs the stored cases, one after the other: of each, standard input has the lengths of the text and of the buffer in
// six digits each, with a blank between and an LF behind, then the text and an LF. For each it writes a line: the
// answer and, if the text is accepted, the book in hexadecimal; then `dirty` if what stands behind the book is not
// zero.
#![tactic(auto)]

ghost use Rattle.std.specs.Prelude.{◌+◌, ◌*◌, ◌^◌, ◌≤◌, ◌<◌};

use answers::Answer;
use console::{Page, read_text};
use std::io::{Read, Result, Write};

// What the digit counts; any other byte counts nothing.
fn digit(b: u8) -> usize
    ensures { result ≤ 9 }
{
    match b {
        b'0'..=b'9' => (b - b'0') as usize,
        _ => 0,
    }
}

// A number with three digits behind it. By hand: a fold over the digits has no bound for the sum.
fn with_three(n: usize, a: u8, b: u8, c: u8) -> usize
    requires { n < 10 ^ 3 }
    ensures { result < (n + 1) * 10 ^ 3 }
{
    ((n * 10 + digit(a)) * 10 + digit(b)) * 10 + digit(c)
}

// The answer, with the book if there is one, two digits for each byte of it; how many bytes of the buffer it takes.
fn put_case(page: &mut impl Write, a: Answer, buffer: &[u8]) -> Result<usize> {
    console::put_answer(page, a)?;
    let length = a.map_or(0, |kept| kept.length);
    if a.is_ok() {
        page.write_all(b" ")?;
    }
    for b in buffer.iter().take(length) {
        write!(page, "{b:02x}")?;
    }
    Ok(length)
}

// The buffer is filled first, so that a byte which is left as it was shows.
fn check_case(rt: &impl Print, text: &[u8], buffer: &mut [u8]) -> Result<()> {
    buffer.fill(165);
    let a = auzuplens::check_text(text, buffer);
    let mut page = Page::new(rt);
    let used = put_case(&mut page, a, buffer)?;
    let end = if buffer.iter().skip(used).all(|b| *b == 0) {
        "\n"
    } else {
        " dirty\n"
    };
    write!(page, "{end}")?;
    page.flush()
}

// The next case, if there is one.
fn next_case(
    rt: &impl Print,
    from: &mut impl Read,
    text: &mut [u8],
    buffer: &mut [u8],
) -> Result<bool> {
    let mut h = [0u8; 14];
    if read_text(from, &mut h)? < 14 {
        return Ok(false);
    }
    let of_text = with_three(with_three(0, h[0], h[1], h[2]), h[3], h[4], h[5]);
    let of_buffer = with_three(with_three(0, h[7], h[8], h[9]), h[10], h[11], h[12]);
    let t = of_text.min(text.len());
    let m = of_buffer.min(buffer.len());
    let n = read_text(from, &mut text[..t])?;
    check_case(rt, &text[..n], &mut buffer[..m])?;
    let mut last = [0u8; 1];
    read_text(from, &mut last)?;
    Ok(true)
}

fn main(rt: HostRuntime) -> Result<()> {
    let mut text = [0u8; 65536];
    let mut buffer = [0u8; 131072];
    let mut input = rt.stdin();
    // At most so many cases, so that the loop ends.
    for _ in 0..1048576 {
        if !next_case(&rt, &mut input, &mut text, &mut buffer)? {
            break;
        }
    }
    Ok(())
}
