// Bytes as a terminal may get them: tabs, and visible characters that take one cell each, as they are, any other byte
// as `?`. Of UTF-8 these are letters and signs of Europe, dashes, quotes and signs of currency.
use std::fmt;
use std::fmt::{Display, Formatter};

// A tab or a visible character. Others turn the writing round, take two cells or none: U+00AD may be invisible, the
// marks from U+0300 to U+037F stand above others.
fn is_visible(c: char) -> bool {
    matches!(c, '\t' | ' '..='~' | '\u{a0}'..='\u{ac}' | '\u{ae}'..='\u{2ff}' | '\u{380}'..='\u{47f}'
        | '\u{1e00}'..='\u{1eff}' | '\u{2010}'..='\u{2027}' | '\u{20a0}'..='\u{20bf}')
}

// A cell for each visible character, and one for each other byte, as for a `?`.
fn put_cells<W: fmt::Write, F: Fn(char) -> char>(
    f: &mut Formatter<W>,
    bytes: &[u8],
    cell: F,
) -> fmt::Result
    requires { F.IsAlwaysCallable cell }
{
    for chunk in bytes.utf8_chunks() {
        for c in chunk.valid().chars() {
            if is_visible(c) {
                f.write_char(cell(c))?;
            } else {
                for _ in 0..c.len_utf8() {
                    f.write_char(cell('?'))?;
                }
            }
        }
        for _ in chunk.invalid() {
            f.write_char(cell('?'))?;
        }
    }
    Ok(())
}

// The bytes as they are shown.
#[derive(Clone, Copy)]
pub struct Shown<'a>(pub &'a [u8]);

impl Display for Shown<'_> {
    fn fmt<W: fmt::Write>(&self, f: &mut Formatter<W>) -> fmt::Result {
        put_cells(f, self.0, |c| c)
    }
}

// As many blanks, with the tabs, as put under them what is put next.
#[derive(Clone, Copy)]
pub struct Under<'a>(pub &'a [u8]);

impl Display for Under<'_> {
    fn fmt<W: fmt::Write>(&self, f: &mut Formatter<W>) -> fmt::Result {
        put_cells(f, self.0, |c| if c == '\t' { c } else { ' ' })
    }
}
