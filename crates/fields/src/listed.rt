// Each list with its count first. The count is held against 10 before its entries; the value is the count.
ghost use Rattle.std.specs.Prelude.{ℕ, ◌+◌, ◌*◌, ◌≤◌, length, Ok};
ghost use Rattle.geom.specs.File as File;
ghost use Rattle.fields.specs.Fields.{word_at, vertex_at, wide, element_at};
ghost use Rattle.fields.specs.Listed.{Lists, ListedBy};

use crate::rows::{counted, element, number, several, vertex};
use geom::refusal::Refusal;

// A count, then as many rows of one width, each judged at its place.
pub fn listed<F: Fn(usize) -> Result<(), Refusal>>(
    file: &[u8],
    at: usize,
    lent: usize,
    wide: usize,
    row: F,
) -> Result<u32, Refusal>
    requires judges { (p : ℕ) → p ≤ length file.now → F.pre row p }
    requires stands { (p : ℕ) → p ≤ length file.now → F.post row p (Ok tt) → p + wide ≤ length file.now }
    ensures { ListedBy (F.post row) file.now result at lent wide }
{
    let n = counted(file, at, lent)?;
    several(file, at + 4, wide, n as usize, row)?;
    Ok(n)
}

// The list of vertices.
pub fn vertex_list(file: &[u8], at: usize, lent: usize) -> Result<u32, Refusal>
    ensures { Lists result file.now at lent 25 (λ (i : ℕ). vertex_at file.now (at + 4 + 25 * i)) File.vertex }
{
    listed(file, at, lent, 25, |place| vertex(file, place))
}

// The list of points, vertex numbers below the count.
pub fn point_list(file: &[u8], at: usize, lent: usize, count: usize) -> Result<u32, Refusal>
    ensures { Lists result file.now at lent 4 (λ (i : ℕ). word_at file.now (at + 4 + 4 * i)) (File.number count) }
{
    listed(file, at, lent, 4, |place| number(file, place, count))
}

// The list of lines, areas or volumes.
pub fn element_list(
    file: &[u8],
    at: usize,
    lent: usize,
    corners: usize,
    count: usize,
) -> Result<u32, Refusal>
    requires { corners ≤ 8 }
    ensures { Lists result file.now at lent (wide corners) (λ (i : ℕ). element_at corners file.now (at + 4 + wide corners * i)) (File.element count corners) }
{
    listed(
        file,
        at,
        lent,
        4 * corners + 1,
        |place| element(file, place, corners, count),
    )
}
