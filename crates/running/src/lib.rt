// The loop over the units: each is read and judged, until one is refused or the text ends; and a text checked with what
// is lent.
#![tactic(auto)]

ghost use Rattle.std.specs.Prelude.{◌≡◌, ℕ, ◌≤◌, min, length, replicate};
ghost use Rattle.rules.specs.Check.{is_over};
ghost use Rattle.members.specs.Members.{Hand};
ghost use Rattle.units.specs.Steps.{place_of};
ghost use Rattle.state.specs.Desks.{Lengths, Loan, Stays};
ghost use Rattle.answers.specs.Answers.{answer_of};
ghost use Rattle.running.specs.Running.{Suffice, Suffices, Runs, Ended, Turned};
ghost use Rattle.running.specs.Running.{refusal_at, refused_in, unread_by};
ghost use Rattle.running.specs.Trying.{Tried};

use answers::{Accepted, Answer, Refusal};
use ground::Ruling;
use places::Position;
use state::State;
use state::desk::Desk;
use symbols::{Cursor, Symbol};
use units::Where;

// Between two units: what is declared, where the next unit stands, and its first symbol.
#[derive(Clone, Copy)]
pub struct Stage {
    pub state: State,
    pub at: Where,
    pub next: Symbol,
}

fn is_over(at: Where) -> bool
    ensures { result ≡ is_over (place_of at) }
{
    matches!(at, Where::Over)
}

fn refused_at(number: u8, place: usize, position: Position) -> Refusal
    ensures { result ≡ refusal_at number place position }
{
    Refusal {
        number,
        place,
        line: position.line,
        column: position.column,
    }
}

// The symbol that keeps a unit from being read; a number that refuses is less than 256.
fn unread(y: Symbol) -> Refusal
    ensures { result ≡ unread_by y }
{
    refused_at((y.refusal % 256) as u8, y.place, symbols::position_of(y))
}

// The rule that a unit breaks. Judging has offsets alone.
fn broken(text: &[u8], r: Ruling) -> Refusal
    requires { length text.now ≤ 65535 }
    ensures { result ≡ refused_in text.now r.number r.place }
{
    refused_at(r.number, r.place, places::position_of(text, r.place))
}

// The next unit is read and judged; none stands behind the model's end.
fn step(desk: &mut Desk, g: Stage) -> Result<Option<Stage>, Refusal>
    requires loan { Loan desk.old }
    requires suffice { Suffices desk.old × Hand desk.old.hand.now }
    requires runs { Runs desk.old g }
    ensures stays { Stays desk.old desk.new }
    ensures turned { Turned desk.new g result }
{
    let scratch = &mut *desk.scratch;
    let read = units::read_unit(desk.text, scratch, g.at, g.next).map_err(unread)?;
    if is_over(g.at) {
        return Ok(None);
    }
    let judged = judge::judge(desk, g.state, read.unit);
    let text = desk.text;
    let state = judged.map_err(|r| broken(text, r))?;
    Ok(Some(Stage {
        state,
        at: read.at,
        next: read.next,
    }))
}

// The units from left to right. The book begins at the front of the desk's; what stands behind it there is of no
// account.
pub fn run(desk: &mut Desk) -> Answer
    requires loan { Loan desk.old }
    requires suffice { Suffices desk.old × Hand desk.old.hand.now }
    requires zero { (n : ℕ) × (desk.old.chains.now ≡ replicate n 0) }
    ensures stays { Stays desk.old desk.new }
    ensures ended { Ended desk.old.text.now (length desk.old.book.now) result desk.new.book.now }
{
    let mut stage = Stage {
        state: state::nothing(),
        at: Where::Start,
        next: Cursor::start().next(desk.text),
    };
    while let Some(next) = step(desk, stage)? {
        stage = next;
    }
    Ok(Accepted::of(stage.state.extent))
}

// The numbers of the hand.
const HAND: usize = members::MOST + members::MOST;

// The desk over what is lent, of which the chains are zero, with a hand of its own.
fn run_over(
    text: &[u8],
    book: &mut [u8],
    index: &mut [u16],
    rows: &mut [u16],
    chains: &mut [u16],
    scratch: &mut [u8],
    tables: &mut [u32],
) -> Answer
    requires loan { Lengths (length text.now) (length book.old) (length scratch.old) (length tables.old) }
    requires suffice { Suffice (length book.old) (length index.old) (length rows.old) (length chains.old) }
    requires zero { (n : ℕ) × (chains.old ≡ replicate n 0) }
    ensures { Ended text.now (length book.old) result book.new }
{
    let mut hand = [0u32; HAND];
    let mut desk = Desk {
        text,
        book,
        index,
        rows,
        chains,
        hand: &mut hand,
        scratch,
        tables,
    };
    run(&mut desk)
}

// The text is checked with the arrays that are lent, of which the chains are zero, and with the first `most` bytes of
// the buffer.
pub fn check_with(
    text: &[u8],
    book: &mut [u8],
    most: usize,
    index: &mut [u16],
    rows: &mut [u16],
    chains: &mut [u16],
    scratch: &mut [u8],
    tables: &mut [u32],
) -> Answer
    requires loan { Lengths (length text.now) most (length scratch.old) (length tables.old) }
    requires suffice { Suffice most (length index.old) (length rows.old) (length chains.old) }
    requires zero { (n : ℕ) × (chains.old ≡ replicate n 0) }
    ensures { Tried text.now (length book.old) most (answer_of result) book.new }
{
    let m = book.len().min(most);
    let a = run_over(text, &mut book[..m], index, rows, chains, scratch, tables);
    answers::finish(book, a);
    a
}
