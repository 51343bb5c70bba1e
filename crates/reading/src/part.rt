// A part of a file, taken on a slice and a place: what it comes to, and where whoever reads the file goes on.
ghost use Rattle.std.specs.Prelude.{◌≡◌, ◌<◌, ◌^◌};
ghost use Rattle.reading.specs.Parts.{stayed_of, taken_of, CurvesTaken, Left};

use fields::rows::{counted, curves};
use geom::refusal::Refusal;

// What a part came to: its value or refusal, its number of entries (0 after a refusal), and the place behind it. The value is that number too, but of
// curves it is the number of their vertices. A refusal stays in it beside the place, and no `?` hands it on: the parts behind it are taken all the same.
#[derive(Clone, Copy)]
pub struct Taken {
    pub field: Result<u32, Refusal>,
    pub n: usize,
    pub at: usize,
}

// A part that was refused: whoever reads stays where they are.
pub fn stays(field: Result<u32, Refusal>, at: usize) -> Taken
    ensures { result ≡ stayed_of field at }
{
    Taken { field, n: 0, at }
}

// Past a part that was read, which lies within the file, so that the place is a number.
pub fn past(field: Result<u32, Refusal>, at: usize, fixed: usize, each: usize) -> Taken
    requires { (taken_of field at fixed each).at < 2 ^ 64 }
    ensures { result ≡ taken_of field at fixed each }
{
    let Ok(value) = field else {
        return stays(field, at);
    };
    let n = value as usize;
    Taken {
        field,
        n,
        at: at + fixed + each * n,
    }
}

// 4: bytes are left over.
pub fn left_over(src: &[u8], at: usize) -> Result<u32, Refusal>
    ensures { Left result src.now at }
{
    if at < src.len() {
        return Err(Refusal::Surplus);
    }
    Ok(0)
}

// The list of curves.
#[tactic(auto, unfolding(crate::specs::Parts::strung))]
pub fn curve_list(src: &[u8], at: usize, lent: usize, count: usize, room: usize) -> Taken
    ensures { CurvesTaken result src.now at lent count room }
{
    let field = counted(src, at, lent);
    let Ok(some) = field else {
        return stays(field, at);
    };
    let n = some as usize;
    let field = curves(src, at + 4, n, count, room);
    let Ok(value) = field else {
        return stays(field, at);
    };
    let all = value as usize;
    Taken {
        field,
        n,
        at: at + 4 + (5 * all + 7 * n),
    }
}
