// Records that are found in books, and names that they show: of each, a line with where the record begins, the length
// of its name and the name; a line with a dash where it is not there.
#![tactic(auto)]

use std::io::Result;

// The name of the record that is read from a byte on.
fn show_at(rt: &impl Print, text: &[u8], book: &[u8], beginning: usize) -> Result<()> {
    let name = records::show_name(text, book, beginning);
    let length = name.len();
    print!(rt; "{beginning} {length} ")?;
    rt.write_all(name)?;
    println!(rt; "")
}

fn show(rt: &impl Print, text: &[u8], book: &[u8], record: usize) -> Result<()> {
    match records::find_record(book, record) {
        Some(beginning) => show_at(rt, text, book, beginning),
        None => println!(rt; "-"),
    }
}

// By the book's first n bytes.
fn show_cut(rt: &impl Print, text: &[u8], book: &[u8], n: usize, record: usize) -> Result<()> {
    if n <= book.len() {
        return show(rt, text, &book[0..n], record);
    }
    Ok(())
}

// The text of 63 bytes and its book: model and domain have names, the range has none, and there is no fourth record.
fn example(rt: &impl Print) -> Result<()> {
    let text = b"INTERLIS 2.4;MODEL M AT \"u\" VERSION \"1\"=DOMAIN T=-10..40;END M.";
    let book = b"\
        \x01\x13\x00\x00\x00\x01\
        \x07\x2F\x00\x00\x00\x01\x00\xFF\xFF\xFF\xFF\
        \x0A\x00\xF6\xFF\xFF\xFF\xFF\xFF\xFF\xFF\x28\x00\x00\x00\x00\x00\x00\x00";
    show(rt, text, book, 0)?;
    show(rt, text, book, 1)?;
    show(rt, text, book, 2)?;
    show(rt, text, book, 3)?;
    show(rt, text, book, 18446744073709551615)?;
    // the range cut off by a byte: the domain before it is still shown; the domain cut off by a byte
    show_cut(rt, text, book, 34, 1)?;
    show_cut(rt, text, book, 34, 2)?;
    show_cut(rt, text, book, 16, 1)?;
    show_cut(rt, text, book, 0, 0)?;
    // from other bytes than a record's first: the unit of a number, a model whose name passes the text's end; from the
    // book's end and behind it
    show_at(rt, text, book, 1)?;
    show_at(rt, text, book, 11)?;
    show_at(rt, text, book, 35)?;
    show_at(rt, text, book, 18446744073709551615)
}

// A name that ends with the text, one past it, one of length 0, one at an offset beyond all.
fn ends(rt: &impl Print) -> Result<()> {
    let text = b"END name";
    show(rt, text, b"\x02\x04\x00\x00\x00\x04", 0)?;
    show(rt, text, b"\x02\x05\x00\x00\x00\x04", 0)?;
    show(rt, text, b"\x02\x04\x00\x00\x00\x05", 0)?;
    show(rt, text, b"\x02\x04\x00\x00\x00\x00", 0)?;
    show(rt, text, b"\x02\xFF\xFF\xFF\xFF\xFF", 0)
}

// Each kind that has a name; what follows a record of no kind or of kind 0 is not found.
fn kinds(rt: &impl Print) -> Result<()> {
    let text = b"abc";
    show(rt, text, b"\x04\x00\x00\x00\x00\x01\x00\xFF\xFF\xFF\xFF", 0)?;
    show(rt, text, b"\x05\x01\x00\x00\x00\x01\x00\xFF\xFF\xFF\xFF", 0)?;
    show(rt, text, b"\x06\x02\x00\x00\x00\x01\x00\xFF\xFF\xFF\xFF", 0)?;
    show(rt, text, b"\x0D\x00\x0E\x00\x00\x00\x00\x03\x0F", 1)?;
    show(rt, text, b"\x0D\x00\x0E\x00\x00\x00\x00\x03\x0F", 2)?;
    show(rt, text, b"\x03\x10\x0B\x01\x01\x00\x00\x00\x02", 3)?;
    // a unit, the unit of a number, a topic
    let measured = b"\
        \x12\x01\x00\x00\x00\x02\x01\xFF\xFF\xFF\xFF\
        \x13\x00\x00\x00\x00\
        \x02\x02\x00\x00\x00\x01";
    show(rt, text, measured, 0)?;
    show(rt, text, measured, 1)?;
    show(rt, text, measured, 2)?;
    // from the middle of the unit of a number, read as a domain
    show_at(
        rt,
        text,
        b"\x13\x07\x00\x00\x00\x00\x02\x00\x00\x00\x00\x00",
        1,
    )?;
    show(rt, text, b"\x15\x01\x00\x00\x00\x00\x01", 1)?;
    show(rt, text, b"\x00\x01\x00\x00\x00\x00\x01", 1)?;
    show(rt, text, b"\xFF\x00\x00\x00\x00\x01", 0)
}

fn main(rt: HostRuntime) -> Result<()> {
    example(&rt)?;
    ends(&rt)?;
    kinds(&rt)
}
