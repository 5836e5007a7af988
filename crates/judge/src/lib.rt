// Judging a unit: 4 by count, 7 to 19 and 22, and its records.
#![tactic(auto)]

ghost use Rattle.std.specs.Prelude.{◌≡◌, length};
ghost use Rattle.std.proofs.Math.Option.{Option};
ghost use Rattle.rules.specs.Units as U;
ghost use Rattle.rules.specs.Declarations as D;
ghost use Rattle.state.specs.Keeping.{Kept};
ghost use Rattle.state.specs.Desks.{Loan, Roomy, Stays};
ghost use Rattle.members.specs.Members.{Hand};
ghost use Rattle.judge.specs.Judging.{ComesAny, Answers};

use ground::Ruling;
use state::State;
use state::desk::Desk;
use units::Unit;

// A mark changes nothing.
pub fn judge(desk: &mut Desk, st: State, unit: Unit) -> Result<State, Ruling>
    requires loan { Loan desk.old }
    requires ample { Roomy desk.old st × Hand desk.old.hand.now }
    requires comes { (s : D.State) × (v : Option U.Unit) × Kept desk.old s st
        × ComesAny desk.old.text.now s v unit desk.old.scratch.now }
    ensures stays { Stays desk.old desk.new }
    ensures scratch { desk.new.scratch ≡ desk.old.scratch }
    ensures judged { (s : D.State) (v : Option U.Unit) → Kept desk.old s st
        → ComesAny desk.old.text.now s v unit desk.old.scratch.now
        → Answers desk.new (length desk.old.book.now) s result v }
{
    match unit {
        Unit::Header(name) => heads::judge_header(desk, st, name),
        Unit::Model(head) => heads::judge_model(desk, st, head),
        Unit::Topic(name) => heads::judge_topic(desk, st, name),
        Unit::Class(head) => classes::judge_class(desk, st, head),
        Unit::Domain(d) => domains::judge_domain(desk, st, d),
        Unit::Attribute(a) => attributes::judge_attribute(desk, st, a),
        Unit::Measure(head) => classes::judge_unit(desk, st, head),
        Unit::Close(name) => heads::judge_close(desk, st, name),
        Unit::Mark => Ok(st),
    }
}
