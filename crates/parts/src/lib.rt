// The parts of units: properties, references, types. Each reader takes the next symbol, already cut, and hands on the
// one after what it read.
#![tactic(auto)]

pub mod types;

ghost use Rattle.std.specs.Prelude.{◌≡◌, []};
ghost use Rattle.rules.specs.Grammar.{enough, properties_from, reference, optional_unit};
ghost use Rattle.rules.specs.Grammar.{properties as Grammar·properties, extends as Grammar·extends};
ghost use Rattle.readers.specs.Reads.{Held, Reads};
ghost use Rattle.parts.specs.Forms.{words_of, is_property, flags_of, with_word, reference_of, optional_of};

use ground::Reference;
use readers::{Read, expect, name_of};
use symbols::{Symbol, faulty};

// ---- properties
// What properties are written at: an attribute; a class, structure or domain; a unit of numbers.
#[derive(Clone, Copy)]
pub enum Owner {
    Attribute,
    Definition,
    Measure,
}

#[derive(Clone, Copy, Default)]
pub struct Properties {
    pub is_abstract: bool,
    pub is_final: bool,
    pub extended: bool,
    pub twice: bool,
}

impl Properties {
    // These and the one of a word.
    fn with(self, word: u32) -> Properties
        ensures { result ≡ with_word self word }
    {
        match word {
            readers::FINAL => Properties {
                is_final: true,
                twice: self.twice || self.is_final,
                ..self
            },
            readers::ABSTRACT => Properties {
                is_abstract: true,
                twice: self.twice || self.is_abstract,
                ..self
            },
            _ => Properties {
                extended: true,
                twice: self.twice || self.extended,
                ..self
            },
        }
    }
}

fn is_property(code: u32, owner: Owner) -> bool
    ensures { result ≡ is_property owner code }
{
    match owner {
        Owner::Attribute => matches!(code, readers::EXTENDED | readers::FINAL),
        Owner::Definition => matches!(code, readers::ABSTRACT | readers::FINAL),
        Owner::Measure => code == readers::ABSTRACT,
    }
}

// The list behind its `(`, whose first symbol is y. Its loop goes by symbols and not by an index: each is cut where the
// last ends.
fn property_list(text: &[u8], y: Symbol, owner: Owner) -> Read<Properties>
    requires { Held text.now y }
    ensures { Reads text.now (properties_from (enough text.now) (words_of owner))
        (λ p. result.value ≡ flags_of p) y result.next }
{
    let mut have = Properties::default();
    let mut z = y;
    while is_property(z.code, owner) {
        have = have.with(z.code);
        let m = expect(text, z, z.code);
        if m.code != readers::COMMA {
            return Read {
                value: have,
                next: expect(text, m, readers::CLOSE),
            };
        }
        z = expect(text, m, readers::COMMA);
    }
    Read {
        value: have,
        next: faulty(z.refusal, z),
    }
}

pub fn read_properties(text: &[u8], y: Symbol, owner: Owner) -> Read<Properties>
    requires { Held text.now y }
    ensures { Reads text.now (Grammar·properties (words_of owner))
        (λ p. result.value ≡ flags_of p) y result.next }
{
    if y.code == readers::ROUND {
        let z = expect(text, y, readers::ROUND);
        return property_list(text, z, owner);
    }
    Read {
        value: Properties::default(),
        next: y,
    }
}

// ---- references
pub fn read_reference(text: &[u8], y: Symbol) -> Read<Reference>
    ensures { Reads text.now reference (λ a. result.value ≡ reference_of a) y result.next }
{
    let behind = expect(text, y, readers::NAME);
    if behind.code != readers::DOT {
        return Read {
            value: Reference::Bare(name_of(y)),
            next: behind,
        };
    }
    let second = expect(text, behind, readers::DOT);
    let behind = expect(text, second, readers::NAME);
    if behind.code != readers::DOT {
        return Read {
            value: Reference::InModel(name_of(y), name_of(second)),
            next: behind,
        };
    }
    let third = expect(text, behind, readers::DOT);
    Read {
        value: Reference::InTopic(name_of(y), name_of(second), name_of(third)),
        next: expect(text, third, readers::NAME),
    }
}

// What EXTENDS names, if it is there. No plainer as one function with the next: that one closes its bracket too.
pub fn read_extends(text: &[u8], y: Symbol) -> Read<Option<Reference>>
    ensures { Reads text.now Grammar·extends (λ a. result.value ≡ optional_of a) y result.next }
{
    if y.code != readers::EXTENDS {
        return Read {
            value: None,
            next: y,
        };
    }
    let base = read_reference(text, expect(text, y, readers::EXTENDS));
    Read {
        value: Some(base.value),
        next: base.next,
    }
}

// The unit of a number in brackets, if it is there.
pub fn read_unit_reference(text: &[u8], y: Symbol) -> Read<Option<Reference>>
    ensures { Reads text.now optional_unit (λ a. result.value ≡ optional_of a) y result.next }
{
    if y.code != readers::SQUARE {
        return Read {
            value: None,
            next: y,
        };
    }
    let unit = read_reference(text, expect(text, y, readers::SQUARE));
    Read {
        value: Some(unit.value),
        next: expect(text, unit.next, readers::SQUARE_CLOSE),
    }
}
