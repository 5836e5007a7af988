// What the readers of units are made of: the symbol to come. A fault goes on as a faulty symbol, which no reader takes.
#![tactic(auto)]

ghost use Rattle.std.specs.Prelude.{◌≡◌};
ghost use Rattle.readers.specs.Reads.{passed, named};

use ground::Name;
use symbols::Symbol;

// The codes of symbols: `code_of`.
pub const STOP: u32 = 0;

pub const NAME: u32 = 1;

pub const NUMBER: u32 = 2;

pub const QUOTED: u32 = 3;

pub const DOTS: u32 = 4;

pub const ROUND: u32 = b'(' as u32;

pub const CLOSE: u32 = b')' as u32;

pub const STAR: u32 = b'*' as u32;

pub const COMMA: u32 = b',' as u32;

pub const DOT: u32 = b'.' as u32;

pub const COLON: u32 = b':' as u32;

pub const SEMICOLON: u32 = b';' as u32;

pub const EQUALS: u32 = b'=' as u32;

pub const SQUARE: u32 = b'[' as u32;

pub const SQUARE_CLOSE: u32 = b']' as u32;

pub const INTERLIS: u32 = 64;

pub const MODEL: u32 = 65;

pub const AT: u32 = 66;

pub const VERSION: u32 = 67;

pub const TOPIC: u32 = 68;

pub const CLASS: u32 = 69;

pub const STRUCTURE: u32 = 70;

pub const ABSTRACT: u32 = 71;

pub const FINAL: u32 = 72;

pub const EXTENDS: u32 = 73;

pub const DOMAIN: u32 = 74;

pub const ATTRIBUTE: u32 = 75;

pub const EXTENDED: u32 = 76;

pub const END: u32 = 77;

pub const MANDATORY: u32 = 78;

pub const TEXT: u32 = 79;

pub const MTEXT: u32 = 80;

pub const NUMERIC: u32 = 81;

pub const UNIT: u32 = 82;

// What a reader read, and the symbol that is left.
#[derive(Clone, Copy)]
pub struct Read<T> {
    pub value: T,
    pub next: Symbol,
}

pub fn name_of(y: Symbol) -> Name
    ensures { result ≡ named y }
{
    Name {
        offset: y.place,
        len: symbols::length_of(y),
    }
}

// The symbol behind y, which is to have the code; else y's fault. No Result: `Reads` promises one symbol that is left.
pub fn expect(text: &[u8], y: Symbol, code: u32) -> Symbol
    ensures { result ≡ passed text.now y code }
{
    if y.code == code {
        return y.next.next(text);
    }
    symbols::faulty(y.refusal, y)
}
