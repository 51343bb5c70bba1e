// The published roots, replayed: every row but a remark is counted, and agrees where the root has the very bits that it gives.
ghost use Rattle.roots.specs.Counts as Counts;

use crate::judge::{INFINITY, SIGN, root_at};
use crate::row::{Row, line_end, row_of};

// The rows, how many of them agree, and where the first line starts that does not.
#[derive(Clone, Copy, Default)]
pub struct Tally {
    pub rows: u64,
    pub agree: u64,
    pub first: usize,
}

// By the places of the lines, since one of them is answered: the library's `split` doesn't give them, and gives one more part, which is
// empty, behind the last line end.
pub fn replay(text: &[u8]) -> Tally {
    let mut done = Tally::default();
    let mut at: usize = 0;
    while at < text.len() {
        let end = line_end(text, at);
        done = read(done, row_of(&text[at..end]), at);
        at = end + 1;
    }
    done
}

// One line more, which starts at `at`. What can't be read as a row does not agree.
fn read(p: Tally, row: Row, at: usize) -> Tally
    requires { Counts.Few p }
    ensures { Counts.Read p result row }
{
    match row {
        Row::Remark => p,
        Row::Pair(argument, expected) => counted(p, agrees(argument, expected), at),
        Row::Broken => counted(p, false, at),
    }
}

fn counted(p: Tally, agrees: bool, at: usize) -> Tally
    requires { Counts.Few p }
    ensures { Counts.Counted p result agrees }
{
    let mut done = p;
    done.rows += 1;
    if agrees {
        done.agree += 1;
        return done;
    }
    if done.agree + 1 == done.rows {
        done.first = at;
    }
    done
}

// Whether the root of the number of the pattern argument has the expected pattern.
fn agrees(argument: u32, expected: u32) -> bool {
    argument % SIGN <= INFINITY && root_at(argument) == Some(expected)
}
