// The walk through a merged enumeration: the base's records stand in the book, the extension's among those of the
// written one. One walk judges what is added, counts, and writes what fits.
#![tactic(auto)]

ghost use Rattle.std.specs.Prelude.{◌≡◌, ◌+◌, ◌*◌, ◌≤◌, ◌<◌, length, take};
ghost use Rattle.rules.specs.Enumerations.{Enum};
ghost use Rattle.rules.specs.Book.{bytes};
ghost use Rattle.ground.specs.Parts.{put_at};
ghost use Rattle.enumerations.specs.Lists.{element_at, list_of, final_of};
ghost use Rattle.enumerations.specs.Standing.{Stands};
ghost use Rattle.merging.specs.Steps.{emitted, element_move, shared_move, added_move, copy_by, add_by};
ghost use Rattle.merging.specs.Steps.{look_move, size_with};
ghost use Rattle.merging.specs.Walks.{top_of, moved_by, run_from, RanTo, Starts};
ghost use Rattle.merging.specs.Merging.{Merges};
ghost use Rattle.tables.specs.Tables.{Gathered, TablesFor};

use book::{ELEMENT_SIZE, LIST_SIZE, kinds, name_record, written_name};
use enumerations::{Inner, Size, element_at, inner_at, past_inner};
use ground::{Name, put_if};
use tables::Table;
use tables::twice::gather;

// What one step writes: nothing; the end of a list; an element; an element and the opening of its list; or nothing may
// be written.
#[derive(Clone, Copy)]
pub enum Emit {
    Quiet,
    Close,
    Element(Name),
    Opening { name: Name, is_final: bool },
    Barred,
}

// An open list, `base` the base's where that has one. While the base's elements are written, `at` stands in its list
// and `own` is the start of the extension's; then `at` stands in the extension's.
#[derive(Clone, Copy)]
pub enum Position {
    Copying {
        base: Option<Inner>,
        at: Option<usize>,
        own: Option<usize>,
    },
    Adding {
        base: Option<Inner>,
        at: Option<usize>,
    },
}

// A step goes on in the innermost list, opens one inside it besides, or leaves it.
#[derive(Clone, Copy)]
pub enum Turn {
    Go(Position),
    Enter { next: Position, child: Position },
    Leave,
}

#[derive(Clone, Copy)]
pub struct Move {
    pub emit: Emit,
    pub turn: Turn,
}

// An element, with the opening of its list where there is one.
fn element_move(name: Name, there: bool, is_final: bool, next: Position, child: Position) -> Move
    ensures { result ≡ element_move name there is_final next child }
{
    if there {
        return Move {
            emit: Emit::Opening { name, is_final },
            turn: Turn::Enter { next, child },
        };
    }
    Move {
        emit: Emit::Element(name),
        turn: Turn::Go(next),
    }
}

fn list_of(v: Option<Inner>) -> Option<usize>
    ensures { result ≡ list_of v }
{
    v.map(|v| v.list)
}

fn is_final(v: Option<Inner>) -> bool
    ensures { result ≡ final_of v }
{
    v.is_some_and(|v| v.is_final)
}

// An element of the base, with what the extension has of it: inside it both are merged.
fn shared(i: Option<Inner>, j: Option<Inner>, name: Name, next: Position) -> Move
    ensures { result ≡ shared_move i j name next }
{
    let child = Position::Copying {
        base: i,
        at: list_of(i),
        own: list_of(j),
    };
    element_move(
        name,
        i.is_some() || j.is_some(),
        is_final(i) || is_final(j),
        next,
        child,
    )
}

// A new element: what is inside it is all new.
fn added(i: Option<Inner>, name: Name, next: Position) -> Move
    ensures { result ≡ added_move i name next }
{
    let child = Position::Adding {
        base: None,
        at: list_of(i),
    };
    element_move(name, i.is_some(), is_final(i), next, child)
}

// A step while the base's elements are written, under their own names.
#[tactic(auto, using(enumerations::proofs::ListLaws::as_written))]
fn copying(
    b: &[u8],
    table: &Table,
    base: Option<Inner>,
    at: Option<usize>,
    own: Option<usize>,
) -> Move
    ensures { Gathered table.now.text.now table.now.s.now table.now.grid table.now.numbers.now
        → result ≡ copy_by table.now.text.now b.now table.now.s.now base own (element_at b.now at) }
{
    let Some(at) = element_at(b, at) else {
        return Move {
            emit: Emit::Quiet,
            turn: Turn::Go(Position::Adding { base, at: own }),
        };
    };
    let name = written_name(b, at);
    let behind = at + ELEMENT_SIZE;
    let next = Position::Copying {
        base,
        at: Some(past_inner(b, behind)),
        own,
    };
    let of_own = table.find(own, name).and_then(|m| inner_at(table.s, m));
    shared(inner_at(b, behind), of_own, name, next)
}

// A step while the extension's new elements are written.
#[tactic(auto, using(enumerations::proofs::ListLaws::as_written))]
fn adding(table: &Table, x: &[u8], base: Option<Inner>, at: Option<usize>) -> Move
    ensures { Gathered table.now.text.now table.now.s.now table.now.grid table.now.numbers.now
        → result ≡ add_by table.now.text.now table.now.s.now x.now base (element_at x.now at) }
{
    let Some(at) = element_at(x, at) else {
        return Move {
            emit: Emit::Close,
            turn: Turn::Leave,
        };
    };
    let name = written_name(x, at);
    let behind = at + ELEMENT_SIZE;
    let next = Position::Adding {
        base,
        at: Some(past_inner(x, behind)),
    };
    if table.find(list_of(base), name).is_some() {
        return Move {
            emit: Emit::Quiet,
            turn: Turn::Go(next),
        };
    }
    if is_final(base) {
        return Move {
            emit: Emit::Barred,
            turn: Turn::Go(next),
        };
    }
    added(inner_at(x, behind), name, next)
}

#[tactic(auto, unfolding(crate::specs::Steps::look_move))]
fn look(b: &Table, x: &Table, p: Position) -> Move
    requires { b.now.text.now ≡ x.now.text.now }
    ensures { Gathered b.now.text.now b.now.s.now b.now.grid b.now.numbers.now
        → Gathered x.now.text.now x.now.s.now x.now.grid x.now.numbers.now
        → result ≡ look_move b.now.text.now b.now.s.now x.now.s.now p }
{
    match p {
        Position::Copying { base, at, own } => copying(b.s, x, base, at, own),
        Position::Adding { base, at } => adding(b, x.s, base, at),
    }
}

// The open lists, the innermost at `depth - 1`: an array with its depth beside, since nothing is kept on a heap.
#[derive(Clone, Copy)]
pub struct Walk {
    pub places: [Position; 8],
    pub depth: usize,
}

impl Walk {
    #[tactic(auto, unfolding(crate::specs::Walks::top_of))]
    pub fn top(self) -> Position
        requires { (0 < self.depth) × (self.depth ≤ 8) }
        ensures { result ≡ top_of self }
    {
        self.places[self.depth - 1]
    }

    #[tactic(auto, unfolding(crate::specs::Walks::moved_by))]
    pub fn moved(mut self, turn: Turn) -> Walk
        requires { (0 < self.depth) × (self.depth ≤ 8) }
        ensures { (result ≡ moved_by self turn) × (result.depth ≤ 8) }
    {
        let d = self.depth;
        match turn {
            Turn::Go(next) => self.places[d - 1] = next,
            Turn::Enter { next, child } => {
                self.places[d - 1] = next;
                if d < 8 {
                    self.places[d] = child;
                    self.depth = d + 1;
                }
            }
            Turn::Leave => self.depth = d - 1,
        }
        self
    }
}

// ---- writing
// These bytes, which are so many records, `size` behind `start`, where they fit; counted in any case.
fn put_records(out: &mut [u8], start: usize, size: Size, src: &[u8], records: usize) -> Size
    requires { (start + size.bytes + length src.now < 18446744073709551616)
        × (size.records + records < 18446744073709551616) }
    ensures { (result ≡ record { bytes = size.bytes + length src.now; records = size.records + records })
        × (out.new ≡ put_at out.old (start + size.bytes) src.now) }
{
    put_if(out, start + size.bytes, src);
    Size {
        bytes: size.bytes + src.len(),
        records: size.records + records,
    }
}

// What a step writes.
fn put_emit(out: &mut [u8], start: usize, size: Size, e: Emit) -> Size
    requires { (start + size.bytes + 8 < 18446744073709551616) × (size.records + 8 < 18446744073709551616) }
    ensures { (result ≡ size_with size (emitted e)) × (out.new ≡ put_at out.old
        (start + size.bytes) (bytes (emitted e))) }
{
    match e {
        Emit::Quiet | Emit::Barred => size,
        Emit::Close => put_records(out, start, size, &[kinds::LIST_END], 1),
        Emit::Element(name) => {
            let n = name_record(kinds::ELEMENT, name.offset, name.len);
            put_records(out, start, size, &n, 1)
        }
        Emit::Opening { name, is_final } => {
            let n = name_record(kinds::ELEMENT, name.offset, name.len);
            let f = u8::from(is_final);
            put_records(
                out,
                start,
                size,
                &[n[0], n[1], n[2], n[3], n[4], n[5], kinds::LIST, f],
                2,
            )
        }
    }
}

// ---- the whole walk
// Something is added where nothing may be.
#[derive(Clone, Copy)]
pub struct Misfit;

// A walk that starts with `first` and writes from `start` on, where `begun` stands already, in at most `fuel` steps.
#[derive(Clone, Copy)]
pub struct Course {
    pub start: usize,
    pub begun: Size,
    pub fuel: usize,
    pub first: Walk,
}

// The walk to its end, through the base's elements and the extension's: how much it writes, or would.
fn run(b: &Table, x: &Table, out: &mut [u8], course: Course) -> Result<Size, Misfit>
    requires { (b.now.text.now ≡ x.now.text.now) × (course.first.depth ≤ 8)
        × (course.begun.records ≤ course.begun.bytes)
        × (course.start + course.begun.bytes + 8 * course.fuel + 8 < 18446744073709551616) }
    ensures { Gathered b.now.text.now b.now.s.now b.now.grid b.now.numbers.now
        → Gathered x.now.text.now x.now.s.now x.now.grid x.now.numbers.now
        → RanTo (run_from course.fuel b.now.text.now b.now.s.now x.now.s.now course.first)
        course.start course.begun out.old out.new result }
{
    let mut w = course.first;
    let mut size = course.begun;
    for _step in 0..course.fuel {
        if w.depth == 0 {
            break;
        }
        let m = look(b, x, w.top());
        if matches!(m.emit, Emit::Barred) {
            return Err(Misfit);
        }
        size = put_emit(out, course.start, size, m.emit);
        w = w.moved(m.turn);
    }
    Ok(size)
}

fn first_walk(b: Option<Inner>, o: Option<Inner>) -> Walk
    ensures { Starts b o result }
{
    let p = Position::Copying {
        base: b,
        at: list_of(b),
        own: list_of(o),
    };
    Walk {
        places: [p; 8],
        depth: 1,
    }
}

// The enumeration at `base` in the first n bytes of `out`, merged with the one at the start of the scratch, written at
// `start` where it fits. Both are gathered, each in a number for every two bytes that it is of, and four more; then
// each record of either takes a few steps, at most one more for each list around it, and each element a look into the
// other's table.
pub fn merged(
    text: &[u8],
    out: &mut [u8],
    n: usize,
    base: usize,
    scratch: &[u8],
    start: usize,
    tables: &mut [u32],
) -> Result<Size, Misfit>
    requires n_le_start { (n ≤ start) × (n ≤ length out.old) × (start ≤ 65546) × (length scratch.now ≤ 262144) }
    requires tables_for { TablesFor (length scratch.now) n (length tables.old) }
    ensures { (b e : Enum) → Stands text.now (take n out.old) b base
        → Stands text.now scratch.now e 0
        → Merges b e start out.old out.new result }
{
    let (book, rest) = out.split_at_mut(n);
    let (numbers, base_numbers) = tables.split_at_mut(scratch.len() / 2 + 4);
    let x = gather(text, scratch, 0, numbers);
    let b = gather(text, book, base, base_numbers);
    let of_base = inner_at(book, base);
    let own = inner_at(scratch, 0);
    put_if(
        rest,
        start - n,
        &[kinds::LIST, u8::from(is_final(of_base) || is_final(own))],
    );
    let course = Course {
        start: start - n,
        begun: Size {
            bytes: LIST_SIZE,
            records: 1,
        },
        fuel: n * (scratch.len() + 1) + 1,
        first: first_walk(of_base, own),
    };
    run(&b, &x, rest, course)
}
