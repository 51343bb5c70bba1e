// Passes to the depth, or to the first that doesn't fit; from the first bench to the second and back.
#![tactic(auto)]

ghost use Rattle.std.specs.Prelude.{◌≡◌, ◌+◌};
ghost use Rattle.geom.specs.Answers.{told, accepted, refused};
ghost use Rattle.geom.specs.Kinds.{kind_of};
ghost use Rattle.geom.specs.Lent.{words_on, Same, SameWork};
ghost use Rattle.geom.specs.Refinement.{pass_over};
ghost use Rattle.geom.specs.Refusals.{side};
ghost use Rattle.pass.specs.Benches.{state_of, lent_of, Held, Lends, Passed};
ghost use Rattle.run.specs.Runs.{run_of, Ran};

use book::Full;
use geom::answer::{Refined, Sizes};
use geom::bench::{BenchMut, Work};
use geom::refusal::Refusal;
use lists::Stage;
use pass::{Terms, pass};

// The answer where the next pass doesn't fit.
fn stopped(passes: u8, sizes: Sizes) -> Refined
    ensures { told result ≡ record { passes = passes; sizes = sizes; verdict = refused 10 } }
{
    Refined {
        passes,
        sizes,
        ended: Err(Refusal::Room),
    }
}

// The answer at the depth.
fn finished(passes: u8, sizes: Sizes) -> Refined
    ensures { told result ≡ record { passes = passes; sizes = sizes; verdict = accepted } }
{
    Refined {
        passes,
        sizes,
        ended: Ok(()),
    }
}

// One pass more: after an even count from the first bench to the second, after an odd one back.
fn turn(
    terms: Terms,
    first: &mut BenchMut,
    second: &mut BenchMut,
    work: &mut Work,
    passes: u8,
    s: Sizes,
    made: usize,
) -> Result<Stage, Full>
    requires held { Held (kind_of terms.kind) terms.base s (side passes (words_on first.old) (words_on second.old)) work.old.book.now made }
    requires lends { Lends (kind_of terms.kind) terms.base terms.room terms.cells (side passes (words_on first.old) (words_on second.old)) (side (passes + 1) (words_on first.old) (words_on second.old)) work.old.book.now work.old.sums.now work.old.tallies.now }
    ensures same { Same first.new first.old }
    ensures same_2 { Same second.new second.old }
    ensures same_3 { SameWork work.new work.old }
    ensures stays { side passes (words_on first.new) (words_on second.new) ≡ side passes (words_on first.old) (words_on second.old) }
    ensures passed { Passed (kind_of terms.kind) terms.base (lent_of (kind_of terms.kind) (side passes (words_on first.old) (words_on second.old)) work.old.book.now) (pass_over (kind_of terms.kind) terms.time terms.base (state_of (kind_of terms.kind) s (side passes (words_on first.old) (words_on second.old)) work.old.book.now made)) (side (passes + 1) (words_on first.new) (words_on second.new)) work.new.book.now result }
{
    if passes % 2 == 0 {
        return pass(terms, &first.read(), second, work, s, made);
    }
    pass(terms, &second.read(), first, work, s, made)
}

// Passes from one bench to the other and back.
pub fn run(
    terms: Terms,
    first: &mut BenchMut,
    second: &mut BenchMut,
    work: &mut Work,
    s: Sizes,
    depth: u8,
) -> Refined
    requires held { Held (kind_of terms.kind) terms.base s (words_on first.old) work.old.book.now 0 }
    requires lends { Lends (kind_of terms.kind) terms.base terms.room terms.cells (words_on first.old) (words_on second.old) work.old.book.now work.old.sums.now work.old.tallies.now }
    ensures same { Same first.new first.old }
    ensures same_2 { Same second.new second.old }
    ensures same_3 { SameWork work.new work.old }
    ensures ran { Ran (kind_of terms.kind) (run_of (kind_of terms.kind) terms.time (lent_of (kind_of terms.kind) (words_on first.old) work.old.book.now) terms.base depth (state_of (kind_of terms.kind) s (words_on first.old) work.old.book.now 0)) result (words_on first.old) (words_on first.new) (words_on second.new) }
{
    let mut sizes = s;
    let mut made = 0;
    for passes in 0..depth {
        let Ok(stage) = turn(terms, first, second, work, passes, sizes, made) else {
            return stopped(passes, sizes);
        };
        sizes = stage.sizes;
        made = stage.made;
    }
    finished(depth, sizes)
}
