// Texts cut into symbols: for each symbol its code, place, length, line and column, and its own fault's number, if it
// has one.
#![tactic(auto)]

use std::io::Result;
use symbols::{Cursor, Symbol};

fn show(rt: &impl Print, y: Symbol) -> Result<()> {
    let position = symbols::position_of(y);
    let len = symbols::length_of(y);
    print!(rt;
        "{} {} {len} {} {}",
        y.code, y.place, position.line, position.column
    )?;
    if y.refusal != 5 {
        print!(rt; " fault {}", y.refusal)?;
    }
    println!(rt; "")
}

// Up to the first symbol of no bytes; a blank line ends the text.
fn cut(rt: &impl Print, text: &[u8]) -> Result<()> {
    let mut cursor = Cursor::start();
    for _ in 0..40 {
        let y = cursor.next(text);
        show(rt, y)?;
        if symbols::length_of(y) == 0 {
            break;
        }
        cursor = y.next;
    }
    println!(rt; "")
}

fn numbers(rt: &impl Print) -> Result<()> {
    cut(rt, b"1...2")?;
    cut(rt, b"40a 1-5 2.4MODEL 1E5 +.5")?;
    cut(
        rt,
        b"123456789012345678 -1234567890.12345678 1234567890123456789 0.000000000000000000",
    )?;
    cut(rt, b"END M..")?;
    cut(rt, b"END M.5")
}

fn gaps(rt: &impl Print) -> Result<()> {
    cut(rt, b"")?;
    cut(rt, b" \t\r\n ")?;
    cut(rt, b"a/*/ b")?;
    cut(rt, b"a/**/b/***/c/* d")?;
    cut(rt, b"!! a \r b !! c \n d !")?;
    cut(rt, b"!!")
}

fn lines(rt: &impl Print) -> Result<()> {
    cut(rt, b"a\nb\rc\r\nd\n\re\n\n\tf\r\rg")?;
    cut(rt, b"a /* \r\n \n*/ b /*\r*/\nc !! d\re !!\r\nf")?;
    cut(rt, b"\n\"a\nb\"")?;
    cut(rt, b"\r\n /* \n")?;
    cut(rt, b"a\r\n")
}

fn strings(rt: &impl Print) -> Result<()> {
    cut(rt, b"\"\" \"\x7F\xFF\" \"\\\"\\\\\\u00eF\" \"open")?;
    cut(rt, b"\"a\\")?;
    cut(rt, b"\"\\u12G4\"")?;
    cut(rt, b"\"\\x\"")?;
    cut(rt, b"\"tab\tand no end")
}

fn words(rt: &impl Print) -> Result<()> {
    cut(
        rt,
        b"OTHERS BAG SYMBOLGY SYMBOLOGY GENERICS END ENDS End END_ COORD2 COORD4",
    )?;
    cut(
        rt,
        b"INTERLIS MODEL AT VERSION TOPIC CLASS STRUCTURE ABSTRACT FINAL EXTENDS DOMAIN ATTRIBUTE EXTENDED END \
            MANDATORY TEXT MTEXT NUMERIC UNIT",
    )?;
    cut(rt, b"NOINCREMENTALTRANSFER NOINCREMENTALTRANSFERS _a")
}

fn marks(rt: &impl Print) -> Result<()> {
    cut(rt, b"(),;:=*[]... .")?;
    cut(rt, b"a+b")?;
    cut(rt, b"/a")?;
    cut(rt, b"\x7F")
}

fn main(rt: HostRuntime) -> Result<()> {
    cut(
        &rt,
        b"INTERLIS 2.4;MODEL M AT \"u\" VERSION \"1\"=DOMAIN T=-10..40;END M.",
    )?;
    numbers(&rt)?;
    gaps(&rt)?;
    lines(&rt)?;
    strings(&rt)?;
    words(&rt)?;
    marks(&rt)
}
