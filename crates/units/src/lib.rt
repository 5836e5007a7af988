// The readers of units: a unit is read from its first symbol on, and the symbol behind it is handed on. A fault goes on
// as a faulty symbol, which no reader takes; the unit's end finds it.
#![tactic(auto)]

ghost use Rattle.std.specs.Prelude.{◌≡◌, true, cond, ◌||◌, List, ℕ, ◌*◌, ◌≤◌, length, eqb};
ghost use Rattle.rules.specs.Names.{sort_number};
ghost use Rattle.rules.specs.Units.{header_unit, model_unit, topic_unit, class_sort, class_unit, domain_unit};
ghost use Rattle.rules.specs.Units.{unit_unit};
ghost use Rattle.rules.specs.Units.{attribute_unit, end_unit, body_end, body_unit, member_unit};
ghost use Rattle.rules.specs.Units.{unit_at};
ghost use Rattle.readers.specs.Reads.{Held, Reads};
ghost use Rattle.units.specs.Steps.{around_of, run_of, behind_of, place_of, end_mark, language, anything};
ghost use Rattle.units.specs.Steps.{run_unit, Steps, ended_of};

use ground::{Name, Reference, sorts};
use parts::types::Written;
use parts::{Owner, Properties};
use readers::{expect, name_of};
use symbols::Symbol;

// The run that is open: none, of domains, of units of numbers.
#[derive(Clone, Copy)]
pub enum Run {
    Nothing,
    Domains,
    Units,
}

// Where the next unit stands: before the header; behind it; in the model or a topic, perhaps in a run; in a class,
// perhaps right after its head; behind the model's END.
#[derive(Clone, Copy)]
pub enum Where {
    Start,
    AfterHeader,
    Body { topic: bool, run: Run },
    Members { topic: bool, first: bool },
    Over,
}

// The model's name, and where the strings behind AT and VERSION stand.
#[derive(Clone, Copy)]
pub struct ModelHead {
    pub name: Name,
    pub address: Name,
    pub version: Name,
}

// Of a class, a structure or a unit of numbers, by the number of its sort: fixed memory, the rows of the index of
// definitions, holds sorts as numbers.
#[derive(Clone, Copy)]
pub struct Head {
    pub sort: usize,
    pub name: Name,
    pub properties: Properties,
    pub base: Option<Reference>,
}

#[derive(Clone, Copy)]
pub struct DomainUnit {
    pub name: Name,
    pub properties: Properties,
    pub base: Option<Reference>,
    pub written: Written,
}

#[derive(Clone, Copy)]
pub struct AttributeUnit {
    pub name: Name,
    pub properties: Properties,
    pub written: Written,
}

// The header's number; names of a topic and after END; a unit of numbers is a measure; DOMAIN, UNIT, ATTRIBUTE and the
// end of the text are marks.
#[derive(Clone, Copy)]
pub enum Unit {
    Header(Name),
    Model(ModelHead),
    Topic(Name),
    Class(Head),
    Domain(DomainUnit),
    Attribute(AttributeUnit),
    Measure(Head),
    Close(Name),
    Mark,
}

// A unit, where the next one stands and its first symbol. Where the next one stands comes first: behind the unit it
// would leave bytes empty before the symbol.
#[derive(Clone, Copy)]
pub struct UnitRead {
    pub at: Where,
    pub unit: Unit,
    pub next: Symbol,
}

// The unit's last symbol, which is to have the code; else it is the symbol that keeps the unit from being read.
fn ended(text: &[u8], y: Symbol, code: u32, unit: Unit, at: Where) -> Result<UnitRead, Symbol>
    ensures { result ≡ ended_of text.now y code unit at }
{
    if y.code != code {
        return Err(y);
    }
    Ok(UnitRead {
        at,
        unit,
        next: y.next.next(text),
    })
}

fn header(text: &[u8], y: Symbol) -> Result<UnitRead, Symbol>
    ensures { (o : List ℕ) → Steps text.now o o header_unit y result }
{
    let number = expect(text, y, readers::INTERLIS);
    let end = expect(text, number, readers::NUMBER);
    let unit = Unit::Header(name_of(number));
    ended(text, end, readers::SEMICOLON, unit, Where::AfterHeader)
}

// A name in parentheses, if there is one.
fn language_part(text: &[u8], y: Symbol) -> Symbol
    ensures { Reads text.now language anything y result }
{
    if y.code == readers::ROUND {
        let name = expect(text, y, readers::ROUND);
        let close = expect(text, name, readers::NAME);
        return expect(text, close, readers::CLOSE);
    }
    y
}

fn model(text: &[u8], y: Symbol) -> Result<UnitRead, Symbol>
    ensures { (o : List ℕ) → Steps text.now o o model_unit y result }
{
    let name = expect(text, y, readers::MODEL);
    let behind = expect(text, name, readers::NAME);
    let behind = language_part(text, behind);
    let address = expect(text, behind, readers::AT);
    let behind = expect(text, address, readers::QUOTED);
    let version = expect(text, behind, readers::VERSION);
    let end = expect(text, version, readers::QUOTED);
    let head = ModelHead {
        name: name_of(name),
        address: name_of(address),
        version: name_of(version),
    };
    let at = Where::Body {
        topic: false,
        run: Run::Nothing,
    };
    ended(text, end, readers::EQUALS, Unit::Model(head), at)
}

fn topic(text: &[u8], y: Symbol) -> Result<UnitRead, Symbol>
    ensures { (o : List ℕ) → Steps text.now o o topic_unit y result }
{
    let name = expect(text, y, readers::TOPIC);
    let end = expect(text, name, readers::NAME);
    let at = Where::Body {
        topic: true,
        run: Run::Nothing,
    };
    let unit = Unit::Topic(name_of(name));
    ended(text, end, readers::EQUALS, unit, at)
}

fn class_sort(structure: bool) -> usize
    ensures { result ≡ sort_number (class_sort structure) }
{
    if structure {
        sorts::STRUCTURE
    } else {
        sorts::CLASS
    }
}

// CLASS or STRUCTURE, which is y.
fn class(text: &[u8], y: Symbol, in_topic: bool) -> Result<UnitRead, Symbol>
    requires { Held text.now y }
    ensures { (o : List ℕ) → (eqb y.code 69 || eqb y.code 70) ≡ true
        → Steps text.now o o (class_unit (around_of in_topic)) y result }
{
    let name = expect(text, y, y.code);
    let behind = expect(text, name, readers::NAME);
    let properties = parts::read_properties(text, behind, Owner::Definition);
    let base = parts::read_extends(text, properties.next);
    let head = Head {
        sort: class_sort(y.code == readers::STRUCTURE),
        name: name_of(name),
        properties: properties.value,
        base: base.value,
    };
    let at = Where::Members {
        topic: in_topic,
        first: true,
    };
    ended(text, base.next, readers::EQUALS, Unit::Class(head), at)
}

fn domain(text: &[u8], scratch: &mut [u8], y: Symbol, in_topic: bool) -> Result<UnitRead, Symbol>
    requires held { Held text.now y }
    requires text_in_bounds { 3 * length text.now ≤ length scratch.old }
    ensures { Steps text.now scratch.old scratch.new
        (domain_unit (around_of in_topic)) y result }
{
    let behind = expect(text, y, readers::NAME);
    let properties = parts::read_properties(text, behind, Owner::Definition);
    let base = parts::read_extends(text, properties.next);
    let first = expect(text, base.next, readers::EQUALS);
    let written = parts::types::read_written(text, scratch, first, base.value.is_some(), false);
    let unit = DomainUnit {
        name: name_of(y),
        properties: properties.value,
        base: base.value,
        written: written.value,
    };
    let at = Where::Body {
        topic: in_topic,
        run: Run::Domains,
    };
    ended(
        text,
        written.next,
        readers::SEMICOLON,
        Unit::Domain(unit),
        at,
    )
}

fn measure(text: &[u8], y: Symbol, in_topic: bool) -> Result<UnitRead, Symbol>
    requires { Held text.now y }
    ensures { (o : List ℕ) → Steps text.now o o (unit_unit (around_of in_topic)) y result }
{
    let behind = expect(text, y, readers::NAME);
    let properties = parts::read_properties(text, behind, Owner::Measure);
    let base = parts::read_extends(text, properties.next);
    let head = Head {
        sort: sorts::UNIT,
        name: name_of(y),
        properties: properties.value,
        base: base.value,
    };
    let at = Where::Body {
        topic: in_topic,
        run: Run::Units,
    };
    ended(text, base.next, readers::SEMICOLON, Unit::Measure(head), at)
}

fn attribute(text: &[u8], scratch: &mut [u8], y: Symbol, in_topic: bool) -> Result<UnitRead, Symbol>
    requires held { Held text.now y }
    requires text_in_bounds { 3 * length text.now ≤ length scratch.old }
    ensures { Steps text.now scratch.old scratch.new
        (attribute_unit (around_of in_topic)) y result }
{
    let behind = expect(text, y, readers::NAME);
    let properties = parts::read_properties(text, behind, Owner::Attribute);
    let first = expect(text, properties.next, readers::COLON);
    let extended = properties.value.extended;
    let written = parts::types::read_written(text, scratch, first, extended, true);
    let unit = AttributeUnit {
        name: name_of(y),
        properties: properties.value,
        written: written.value,
    };
    let at = Where::Members {
        topic: in_topic,
        first: false,
    };
    ended(
        text,
        written.next,
        readers::SEMICOLON,
        Unit::Attribute(unit),
        at,
    )
}

// Behind END and the name: the model's END is the last.
fn end_mark(last: bool) -> u32
    ensures { result ≡ cond last 46 59 }
{
    if last {
        readers::DOT
    } else {
        readers::SEMICOLON
    }
}

fn close(text: &[u8], y: Symbol, last: bool, at: Where) -> Result<UnitRead, Symbol>
    ensures { (o : List ℕ) → Steps text.now o o (end_unit (end_mark last) (place_of at)) y result }
{
    let name = expect(text, y, readers::END);
    let end = expect(text, name, readers::NAME);
    let unit = Unit::Close(name_of(name));
    ended(text, end, end_mark(last), unit, at)
}

// A topic ends with `;`, the model with `.`.
fn body_end(text: &[u8], y: Symbol, in_topic: bool) -> Result<UnitRead, Symbol>
    ensures { (o : List ℕ) → Steps text.now o o (body_end (around_of in_topic)) y result }
{
    if in_topic {
        let at = Where::Body {
            topic: false,
            run: Run::Nothing,
        };
        return close(text, y, false, at);
    }
    close(text, y, true, Where::Over)
}

// A unit that begins with no word of its own, by the run that is open, or the end.
fn run_unit(
    text: &[u8],
    scratch: &mut [u8],
    y: Symbol,
    in_topic: bool,
    run: Run,
) -> Result<UnitRead, Symbol>
    requires held { Held text.now y }
    requires text_in_bounds { 3 * length text.now ≤ length scratch.old }
    ensures { Steps text.now scratch.old scratch.new
        (run_unit (around_of in_topic) (run_of run)) y result }
{
    match run {
        Run::Domains if y.code == readers::NAME => domain(text, scratch, y, in_topic),
        Run::Units if y.code == readers::NAME => measure(text, y, in_topic),
        _ => body_end(text, y, in_topic),
    }
}

fn body_unit(
    text: &[u8],
    scratch: &mut [u8],
    y: Symbol,
    in_topic: bool,
    run: Run,
) -> Result<UnitRead, Symbol>
    requires held { Held text.now y }
    requires text_in_bounds { 3 * length text.now ≤ length scratch.old }
    ensures { Steps text.now scratch.old scratch.new
        (body_unit (around_of in_topic) (run_of run)) y result }
{
    match y.code {
        readers::TOPIC if !in_topic => topic(text, y),
        readers::CLASS | readers::STRUCTURE => class(text, y, in_topic),
        readers::DOMAIN => {
            let at = Where::Body {
                topic: in_topic,
                run: Run::Domains,
            };
            ended(text, y, readers::DOMAIN, Unit::Mark, at)
        }
        readers::UNIT => {
            let at = Where::Body {
                topic: in_topic,
                run: Run::Units,
            };
            ended(text, y, readers::UNIT, Unit::Mark, at)
        }
        _ => run_unit(text, scratch, y, in_topic, run),
    }
}

fn member_unit(
    text: &[u8],
    scratch: &mut [u8],
    y: Symbol,
    in_topic: bool,
    first: bool,
) -> Result<UnitRead, Symbol>
    requires held { Held text.now y }
    requires text_in_bounds { 3 * length text.now ≤ length scratch.old }
    ensures { Steps text.now scratch.old scratch.new
        (member_unit (around_of in_topic) (behind_of first)) y result }
{
    match y.code {
        readers::ATTRIBUTE if first => {
            let at = Where::Members {
                topic: in_topic,
                first: false,
            };
            ended(text, y, readers::ATTRIBUTE, Unit::Mark, at)
        }
        readers::NAME => attribute(text, scratch, y, in_topic),
        _ => {
            let at = Where::Body {
                topic: in_topic,
                run: Run::Nothing,
            };
            close(text, y, false, at)
        }
    }
}

// The unit that stands at y. The scratch has three bytes for a byte of text.
pub fn read_unit(text: &[u8], scratch: &mut [u8], at: Where, y: Symbol) -> Result<UnitRead, Symbol>
    requires held { Held text.now y }
    requires text_in_bounds { 3 * length text.now ≤ length scratch.old }
    ensures { Steps text.now scratch.old scratch.new
        (unit_at (place_of at)) y result }
{
    match at {
        Where::Start => header(text, y),
        Where::AfterHeader => model(text, y),
        Where::Body { topic, run } => body_unit(text, scratch, y, topic, run),
        Where::Members { topic, first } => member_unit(text, scratch, y, topic, first),
        Where::Over => ended(text, y, readers::STOP, Unit::Mark, Where::Over),
    }
}
