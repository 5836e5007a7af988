// Judging the header, the model, heads of topics, and ends.
#![tactic(auto)]

ghost use Rattle.std.specs.Prelude.{◌≡◌, false, List, ℕ, ◌+◌, ◌≤◌, ◌<◌, length};
ghost use Rattle.std.proofs.Math.Option.{none, some};
ghost use Rattle.rules.specs.Bytes.{ascii, same};
ghost use Rattle.rules.specs.Names as R;
ghost use Rattle.rules.specs.Symbols as S;
ghost use Rattle.rules.specs.Units as U;
ghost use Rattle.rules.specs.Declarations as D;
ghost use Rattle.rules.specs.Declarations.{Def};
ghost use Rattle.rules.specs.Judge.{declare, after_topic};
ghost use Rattle.book.specs.Sizes.{topic_size, class_end_size};
ghost use Rattle.enumerations.specs.Standing.{InText};
ghost use Rattle.names.specs.Index.{row, Says, definition_width};
ghost use Rattle.names.specs.References.{bytes_of, Inside};
ghost use Rattle.readers.specs.Reads.{name_cut};
ghost use Rattle.units.specs.declared.Unit.TheVariants.{Header as V-as-Header, Model as V-as-Model};
ghost use Rattle.units.specs.declared.Unit.TheVariants.{Topic as V-as-Topic};
ghost use Rattle.units.specs.declared.Unit.TheVariants.{Close as V-as-Close};
ghost use Rattle.wellformed.specs.Fairness.{FairState};
ghost use Rattle.state.specs.Desks.{Roomy, Stays, with_book, with_definition};
ghost use Rattle.state.specs.Keeping.{Keeps, JudgedAs, KeptOver, AnsweredOver, Comes, verdict, Small};
ghost use Rattle.state.specs.Next.{closed_by};
ghost use Rattle.heads.specs.Topics.{topic_by};

use book::kinds;
use ground::{Name, Ruling};
use names::NewDefinition;
use state::State;
use state::desk::Desk;
use units::ModelHead;

// The edition that the header names is the one that is checked.
fn is_edition(text: &[u8], name: Name) -> bool
    requires { Inside text.now name }
    ensures { result ≡ same (bytes_of text.now name) (ascii "2.4") }
{
    &text[name.offset..name.offset + name.len] == b"2.4".as_slice()
}

// The header: 7.
pub fn judge_header(desk: &Desk, st: State, name: Name) -> Result<State, Ruling>
    requires text_len_bound { length desk.now.text.now ≤ 65535 }
    requires comes { (s : D.State) × (v : S.Symbol) × (o : List ℕ) × (x : List ℕ) × (z : List ℕ) × (y : List ℕ)
        × (hs : List ℕ) × (rs : List ℕ) × Keeps desk.now.text.now s st o x z y hs
        × Comes desk.now.text.now s (U.header v) (V-as-Header name) rs }
    ensures { (s : D.State) (v : S.Symbol) (o x z y hs rs : List ℕ) → Keeps desk.now.text.now s st o x z y hs
        → Comes desk.now.text.now s (U.header v) (V-as-Header name) rs
        → JudgedAs desk.now.text.now (verdict s (U.header v) o) result o x z y hs }
{
    if !is_edition(desk.text, name) {
        return Err(Ruling {
            number: 7,
            place: name.offset,
        });
    }
    Ok(st)
}

// The model: 19.
pub fn judge_model(desk: &mut Desk, st: State, head: ModelHead) -> Result<State, Ruling>
    requires text_len_bound { (length desk.old.text.now ≤ 65535) × (length desk.old.book.now ≤ 65535) }
    requires comes { (s : D.State) × (n : R.Name) × (q : U.Strings) × (x : List ℕ) × (z : List ℕ) × (y : List ℕ)
        × (hs : List ℕ) × (rs : List ℕ) × Keeps desk.old.text.now s st desk.old.book.now x z y hs
        × Comes desk.old.text.now s (U.model n q) (V-as-Model head) rs }
    ensures stays { Stays desk.old desk.new }
    ensures only { desk.new ≡ with_book desk.old desk.new.book.now }
    ensures judged { (s : D.State) (n : R.Name) (q : U.Strings) (x z y hs rs : List ℕ)
        → Keeps desk.old.text.now s st desk.old.book.now x z y hs
        → Comes desk.old.text.now s (U.model n q) (V-as-Model head) rs
        → JudgedAs desk.new.text.now (verdict s (U.model n q) desk.old.book.now) result desk.new.book.now x z y hs }
{
    let name = head.name;
    let used = st.extent.used;
    if desk.book.len() < used + book::MODEL_SIZE {
        return Err(Ruling {
            number: 19,
            place: name.offset,
        });
    }
    let record = book::name_record(kinds::MODEL, name.offset, name.len);
    let book = &mut *desk.book;
    ground::put(book, used, &record);
    Ok(st.begun(name))
}

// A topic's record, its row, and its name, which is found from now on.
fn declare_topic(desk: &mut Desk, st: State, name: Name) -> State
    requires inside { Inside desk.old.text.now name × (length desk.old.text.now ≤ 65535)
        × (length desk.old.book.now ≤ 65535) }
    requires topic_size_in_bounds { (st.extent.used + topic_size ≤ length desk.old.book.now) × Small st
        × Roomy desk.old st }
    ensures stays { Stays desk.old desk.new }
    ensures only { desk.new ≡ with_definition desk.old desk.new }
    ensures value { result ≡ topic_by st name }
    ensures kept { (s : D.State) (n : R.Name) (hs : List ℕ) → KeptOver desk.old desk.old.book.now hs s st
        → name ≡ name_cut n → InText desk.old.text.now n → s.open_class ≡ none
        → FairState desk.old.text.now (after_topic s n)
        → KeptOver desk.new desk.new.book.now hs (after_topic s n) (topic_by st name) }
{
    let used = st.extent.used;
    let record = book::name_record(kinds::TOPIC, name.offset, name.len);
    let book = &mut *desk.book;
    ground::put(book, used, &record);
    let d = NewDefinition {
        name,
        home: 0,
        number: st.extent.records,
        sort: ground::sorts::TOPIC,
        flags: 0,
        place: used,
        base: 0,
        first: st.listing.total,
    };
    desk.declare(st, d);
    let home = st.extent.records + 1;
    st.declared(book::TOPIC_SIZE, 1, 0).in_topic(name, home)
}

// The head of a topic: 9 and 19.
pub fn judge_topic(desk: &mut Desk, st: State, name: Name) -> Result<State, Ruling>
    requires text_len_bound { (length desk.old.text.now ≤ 65535) × (length desk.old.book.now ≤ 65535)
        × Roomy desk.old st }
    requires comes { (s : D.State) × (n : R.Name) × (hs : List ℕ) × (rs : List ℕ)
        × KeptOver desk.old desk.old.book.now hs s st
        × Comes desk.old.text.now s (U.topic n) (V-as-Topic name) rs }
    ensures stays { Stays desk.old desk.new }
    ensures only { desk.new ≡ with_definition desk.old desk.new }
    ensures judged { (s : D.State) (n : R.Name) (hs rs : List ℕ) → KeptOver desk.old desk.old.book.now hs s st
        → Comes desk.old.text.now s (U.topic n) (V-as-Topic name) rs
        → AnsweredOver desk.new hs (verdict s (U.topic n) desk.old.book.now) result }
{
    let place = name.offset;
    if desk.is_taken(st, name) {
        return Err(Ruling { number: 9, place });
    }
    if desk.book.len() < st.extent.used + book::TOPIC_SIZE {
        return Err(Ruling { number: 19, place });
    }
    Ok(declare_topic(desk, st, name))
}

// ---- END of what is open: the class, else the topic, else the model
// The record of the class's END; its row is counted, and its name found from now on.
fn end_class(desk: &mut Desk, st: State, own: Name) -> State
    requires inside { Inside desk.old.text.now own × (length desk.old.book.now ≤ 65535) }
    requires class_end_size_in_bounds { (st.extent.used + class_end_size ≤ length desk.old.book.now) × Small st
        × Roomy desk.old st }
    ensures stays { Stays desk.old desk.new }
    ensures only { desk.new ≡ with_definition desk.old desk.new }
    ensures value { result ≡ closed_by st }
    ensures kept { (s : D.State) (c : Def) (hs : List ℕ) → KeptOver desk.old desk.old.book.now hs s st
        → s.open_class ≡ some c → bytes_of desk.old.text.now own ≡ c.name.bytes
        → FairState desk.old.text.now (declare s (D.def c))
        → KeptOver desk.new desk.new.book.now hs (declare s (D.def c)) (closed_by st) }
{
    let record = [kinds::CLASS_END];
    let book = &mut *desk.book;
    ground::put(book, st.extent.used, &record);
    desk.close(st);
    desk.make_known(st, own);
    st.closed()
}

// The name of the class whose row is the one behind the last.
fn open_name(desk: &Desk, st: State) -> Name
    requires { Roomy desk.now st }
    ensures { (t : List ℕ) (d : Def) → Says t d (row definition_width desk.now.index.now (st.listing.count + 1))
        → result ≡ name_cut d.name }
{
    let p = st.listing.count + 1;
    Name {
        offset: names::field(desk.index, p, names::OFFSET),
        len: names::field(desk.index, p, names::LENGTH),
    }
}

fn close_class(desk: &mut Desk, st: State, name: Name) -> Result<State, Ruling>
    requires text_len_bound { (length desk.old.text.now ≤ 65535) × (length desk.old.book.now ≤ 65535)
        × Roomy desk.old st }
    requires open_nonzero { 0 < st.context.open }
    requires comes { (s : D.State) × (n : R.Name) × (hs : List ℕ) × (rs : List ℕ)
        × KeptOver desk.old desk.old.book.now hs s st
        × Comes desk.old.text.now s (U.close n) (V-as-Close name) rs }
    ensures stays { Stays desk.old desk.new }
    ensures only { desk.new ≡ with_definition desk.old desk.new }
    ensures judged { (s : D.State) (n : R.Name) (hs rs : List ℕ) → KeptOver desk.old desk.old.book.now hs s st
        → Comes desk.old.text.now s (U.close n) (V-as-Close name) rs
        → AnsweredOver desk.new hs (verdict s (U.close n) desk.old.book.now) result }
{
    let own = open_name(desk, st);
    let place = name.offset;
    if !names::same_name(desk.text, name, own) {
        return Err(Ruling { number: 8, place });
    }
    if desk.book.len() < st.extent.used + book::CLASS_END_SIZE {
        return Err(Ruling { number: 19, place });
    }
    Ok(end_class(desk, st, own))
}

fn close_topic(desk: &mut Desk, st: State, name: Name) -> Result<State, Ruling>
    requires book_len_bound { (length desk.old.book.now ≤ 65535) × (st.context.open ≡ 0) × (0 < st.context.home) }
    requires comes { (s : D.State) × (n : R.Name) × (x : List ℕ) × (z : List ℕ) × (y : List ℕ) × (hs : List ℕ)
        × (rs : List ℕ) × Keeps desk.old.text.now s st desk.old.book.now x z y hs
        × Comes desk.old.text.now s (U.close n) (V-as-Close name) rs }
    ensures stays { Stays desk.old desk.new }
    ensures only { desk.new ≡ with_book desk.old desk.new.book.now }
    ensures judged { (s : D.State) (n : R.Name) (x z y hs rs : List ℕ)
        → Keeps desk.old.text.now s st desk.old.book.now x z y hs
        → Comes desk.old.text.now s (U.close n) (V-as-Close name) rs
        → JudgedAs desk.new.text.now (verdict s (U.close n) desk.old.book.now) result desk.new.book.now x z y hs }
{
    let topic = st.context.topic;
    let place = name.offset;
    if !names::same_name(desk.text, name, topic) {
        return Err(Ruling { number: 8, place });
    }
    let used = st.extent.used;
    if desk.book.len() < used + book::TOPIC_END_SIZE {
        return Err(Ruling { number: 19, place });
    }
    let record = [kinds::TOPIC_END];
    let book = &mut *desk.book;
    ground::put(book, used, &record);
    Ok(st.grown(book::TOPIC_END_SIZE, 1, 0).in_topic(topic, 0))
}

// END of what is open: 8 and 19.
pub fn judge_close(desk: &mut Desk, st: State, name: Name) -> Result<State, Ruling>
    requires text_len_bound { (length desk.old.text.now ≤ 65535) × (length desk.old.book.now ≤ 65535)
        × Roomy desk.old st }
    requires comes { (s : D.State) × (n : R.Name) × (hs : List ℕ) × (rs : List ℕ)
        × KeptOver desk.old desk.old.book.now hs s st
        × Comes desk.old.text.now s (U.close n) (V-as-Close name) rs }
    ensures stays { Stays desk.old desk.new }
    ensures only { desk.new ≡ with_definition desk.old desk.new }
    ensures judged { (s : D.State) (n : R.Name) (hs rs : List ℕ) → KeptOver desk.old desk.old.book.now hs s st
        → Comes desk.old.text.now s (U.close n) (V-as-Close name) rs
        → AnsweredOver desk.new hs (verdict s (U.close n) desk.old.book.now) result }
{
    if 0 < st.context.open {
        return close_class(desk, st, name);
    }
    if 0 < st.context.home {
        return close_topic(desk, st, name);
    }
    if !names::same_name(desk.text, name, st.context.model) {
        return Err(Ruling {
            number: 8,
            place: name.offset,
        });
    }
    Ok(st)
}
