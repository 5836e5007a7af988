// A type that is written over a base's, of a domain or in place at an attribute: 14 to 17 and 22, its records, and room
// for them.
#![tactic(auto)]

ghost use Rattle.std.specs.Prelude.{◌≡◌, false, List, ℕ, ◌+◌, ◌≤◌, length, take, leb};
ghost use Rattle.std.proofs.Math.Option.{Option};
ghost use Rattle.rules.specs.Grammar.{WrittenType};
ghost use Rattle.rules.specs.Types.{Ty, structure, keeps_unit};
ghost use Rattle.rules.specs.Declarations.{Def};
ghost use Rattle.rules.specs.Book.{type_records};
ghost use Rattle.rules.specs.Judge.{domain_type, is_naming};
ghost use Rattle.parts.specs.Forms.{any_of};
ghost use Rattle.rules.specs.All.{AnyIs};
ghost use Rattle.wellformed.specs.Fairness.{Begins};
ghost use Rattle.tables.specs.Tables.{TablesFor};
ghost use Rattle.ground.specs.Rulings.{ruling_of};
ghost use Rattle.fitting.specs.Values.{Valued, Typed, Sized, FairOrNone};
ghost use Rattle.types.specs.Writing.{Scratched, Once};
ghost use Rattle.written.specs.Written.{written_rules, plain_rules, LaidWhen};
ghost use Rattle.book.specs.Sizes.{head_size};

use enumerations::Size;
use ground::Ruling;
use parts::types::Written;
use types::Over;

// 14 to 17 and 22, but 17 of a written enumeration, which has no unit.
fn plain_ruling(w: Written, over: Over) -> Result<(), Ruling>
    requires { Sized over.own × Sized over.base }
    ensures { (t : List ℕ) (v : Option WrittenType) (x : Option Def) (b : Ty) → w.meant ≡ any_of v
        → AnyIs (Begins w.place) v → FairOrNone t b
        → Valued (domain_type v x b) over.own → Valued b over.base
        → over.keeps ≡ keeps_unit (domain_type v x b) b
        → result ≡ ruling_of (plain_rules over.based w.place v x b) }
{
    let place = w.place;
    types::type_ruling(w.meant, place, over.based)?;
    if !over.based {
        return Ok(());
    }
    if fitting::differ(over.own, over.base) {
        return Err(Ruling { number: 16, place });
    }
    if !fitting::fits(over.own, over.base) {
        return Err(Ruling { number: 17, place });
    }
    if !over.keeps {
        return Err(Ruling { number: 22, place });
    }
    Ok(())
}

// 14 to 17 and 22 of a type over the base's, and its records, behind room for a head where the first `used` bytes end.
pub fn lay_written(
    text: &[u8],
    book: &mut [u8],
    used: usize,
    scratch: &[u8],
    w: Written,
    over: Over,
    tables: &mut [u32],
) -> Result<Size, Ruling>
    requires sized { Sized over.own × Sized over.base }
    requires used_in_bounds { (used ≤ length book.old) × (length book.old ≤ 65535) × (length scratch.now ≤ 262144) }
    requires tables_for { TablesFor (length scratch.now) (length book.old) (length tables.old) }
    ensures { (v : Option WrittenType) (x : Option Def) (b : Ty) → w.meant ≡ any_of v → is_naming v ≡ false
        → AnyIs (Begins w.place) v
        → Scratched text.now scratch.now v → Once v → FairOrNone text.now b
        → (over.based ≡ false → b ≡ structure) → Valued (domain_type v x b) over.own
        → Typed text.now (take used book.old) b over.base
        → over.keeps ≡ keeps_unit (domain_type v x b) b
        → LaidWhen (ruling_of (written_rules over.based w.place v x b))
        (type_records (domain_type v x b)) (used + head_size) book.old book.new result }
{
    plain_ruling(w, over)?;
    types::lay(text, book, used, scratch, w.meant, over, tables).map_err(|_| Ruling {
        number: 17,
        place: w.place,
    })
}

// 19 of a head and as many bytes behind it, in a buffer of some length.
pub fn has_room(len: usize, used: usize, bytes: usize) -> bool
    requires { used ≤ len }
    ensures { result ≡ leb (used + head_size + bytes) len }
{
    let free = len - used;
    book::HEAD_SIZE <= free && bytes <= free - book::HEAD_SIZE
}
