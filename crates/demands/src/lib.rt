// The promise of checking a text, in the words of the demands.
#![tactic(auto)]

ghost use Rattle.std.specs.Prelude.{length};
ghost use Rattle.demands.specs.Demands.{Gives};

use answers::Answer;

pub fn answer(text: &[u8], book: &mut [u8]) -> Answer
    ensures { Gives text.now (length book.old) result book.new }
{
    auzuplens::check_text(text, book)
}
