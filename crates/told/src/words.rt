// The sizes that a caller states, and the answers of refinement, triangulation and normals. An answer's words are written as one array, as C reads them:
// put together of an array of sizes and what stands before it they would be no plainer.
ghost use Rattle.std.specs.Prelude.{◌≡◌};
ghost use Rattle.geom.specs.Answers.{verdict_of, told, outcome_of};
ghost use Rattle.told.specs.Told.{sizes_from, verdict_by, told_of, outcome_from};

use geom::answer::{Answer, Refined, Sizes};
use geom::refusal::Refusal;

// The sizes that seven words state.
pub fn stated(words: &[usize; 7]) -> Sizes
    ensures { result ≡ sizes_from 0 words.now }
{
    Sizes {
        vertices: words[0],
        points: words[1],
        lines: words[2],
        areas: words[3],
        volumes: words[4],
        curves: words[5],
        curve_vertices: words[6],
    }
}

// 0 when finished, else the refusal's number.
pub fn number(ended: Result<(), Refusal>) -> u8
    ensures { verdict_by result ≡ verdict_of ended }
{
    match ended {
        Ok(()) => 0,
        Err(refusal) => u8::from(refusal),
    }
}

// Writes an answer as eight words, the passes and the sizes, and gives the number: 0 when finished, else the refusal's.
pub fn tell(r: Refined, answer: &mut [usize; 8]) -> u8
    ensures { told_of result answer.new ≡ told r }
{
    let sizes = r.sizes;
    *answer = [
        r.passes as usize,
        sizes.vertices,
        sizes.points,
        sizes.lines,
        sizes.areas,
        sizes.volumes,
        sizes.curves,
        sizes.curve_vertices,
    ];
    number(r.ended)
}

// Writes an answer as seven words, the sizes, and gives the number: 0 when finished, else the refusal's.
pub fn tell_sizes(a: Answer, answer: &mut [usize; 7]) -> u8
    ensures { outcome_from result answer.new ≡ outcome_of a }
{
    let sizes = a.sizes;
    *answer = [
        sizes.vertices,
        sizes.points,
        sizes.lines,
        sizes.areas,
        sizes.volumes,
        sizes.curves,
        sizes.curve_vertices,
    ];
    number(a.ended)
}
