// Where a run of bytes ends.
ghost use Rattle.ground.specs.Parts.{run_end};
ghost use Rattle.ground.specs.Runs.{Answers};
ghost use Rattle.std.specs.Prelude.{Bool, ℕ, ◌≡◌};

// Where the bytes from a place on that pass a test end.
pub fn run_end<F: Fn(u8) -> bool>(text: &[u8], at: usize, passes: F) -> usize
    requires { F.IsAlwaysCallable passes }
    ensures { (p : ℕ → Bool) → Answers (F.post passes) p → result ≡ run_end p text.now at }
{
    for i in at..text.len() {
        if !passes(text[i]) {
            return i;
        }
    }
    at.max(text.len())
}
