// A walk over patterns of every exponent and both signs, with a count for each kind.
ghost use Rattle.std.specs.Prelude.{◌≡◌, ◌+◌, ◌^◌, ◌<◌, ◌≤◌};
ghost use Rattle.roots.specs.Counts as Counts;

use crate::judge::{FIELD, Verdict, tried};

// An odd step, so that its multiples modulo 2 ^ 32 spread over all patterns: 2 ^ 32 over the golden ratio, made prime.
const STEP: u32 = 0x9E37_79B1;

const STEPS: u32 = 100_000;

// The patterns visited, by kind; how many roots were wrong, and the first pattern whose root was.
#[derive(Clone, Copy, Default)]
pub struct Walk {
    pub above: u64,
    pub below: u64,
    pub own: u64,
    pub nans: u64,
    pub wrong: u64,
    pub first: u32,
}

pub fn start() -> Walk
    ensures { (Counts.visits result ≡ 0) × (result.wrong ≡ 0) }
{
    Walk::default()
}

// How many patterns were visited.
pub fn visited(w: Walk) -> u64
    requires { Counts.visits w < 2 ^ 64 }
    ensures { result ≡ Counts.visits w }
{
    w.above + w.below + w.own + w.nans
}

// The multiples of the step.
pub fn spread(w: Walk) -> Walk
    requires { Counts.Room w 100_000 }
    ensures { Counts.Visited w result 100_000 }
{
    let mut done = w;
    for i in 0..STEPS {
        done = visit(done, i.wrapping_mul(STEP));
    }
    done
}

// The first and the last pattern of each sign and exponent's field.
pub fn at_field_ends(w: Walk) -> Walk
    requires { Counts.Room w 1024 }
    ensures { Counts.Visited w result 1024 }
{
    let mut done = w;
    for field in 0..512 {
        done = visit(done, field * FIELD);
        done = visit(done, field * FIELD + (FIELD - 1));
    }
    done
}

// One pattern more.
fn visit(w: Walk, pattern: u32) -> Walk
    requires { Counts.Room w 1 }
    ensures { Counts.Visited w result 1 }
{
    let mut done = w;
    match tried(pattern) {
        Verdict::Above(right) => {
            done.above += 1;
            held(done, right, pattern)
        }
        Verdict::Below(right) => {
            done.below += 1;
            held(done, right, pattern)
        }
        Verdict::Own(right) => {
            done.own += 1;
            held(done, right, pattern)
        }
        Verdict::LeftOut => {
            done.nans += 1;
            done
        }
    }
}

// The count of the wrong ones.
fn held(w: Walk, right: bool, pattern: u32) -> Walk
    requires { w.wrong + 1 < 2 ^ 64 }
    ensures { (Counts.visits result ≡ Counts.visits w) × (result.wrong ≤ w.wrong + 1) }
{
    if right {
        return w;
    }
    let mut done = w;
    done.wrong += 1;
    if done.wrong == 1 {
        done.first = pattern;
    }
    done
}
