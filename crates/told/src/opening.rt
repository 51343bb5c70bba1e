// The answer of reading a file.
ghost use Rattle.std.specs.Prelude.{◌≡◌};
ghost use Rattle.geom.specs.Answers.{judgement_of, opening_of};
ghost use Rattle.told.specs.Told.{refusal_of, kind_word, Says};

use geom::answer::Reading;
use geom::kind::Kind;
use geom::refusal::Refusal;

// The kind as a word: 0 cubes, 1 simplices; after a refusal 0.
fn kind_word(opened: Result<Kind, Refusal>) -> usize
    ensures { result ≡ kind_word (judgement_of opened) }
{
    match opened {
        Ok(kind) => kind as usize,
        Err(_) => 0,
    }
}

// 0 where a mesh was read, else the refusal's number.
fn refusal(opened: Result<Kind, Refusal>) -> u8
    ensures { result ≡ refusal_of (judgement_of opened) }
{
    match opened {
        Ok(_) => 0,
        Err(refusal) => u8::from(refusal),
    }
}

// Writes an answer as eight words, the kind and the sizes, and gives the number.
pub fn tell_reading(r: Reading, answer: &mut [usize; 8]) -> u8
    ensures { Says result answer.new (opening_of r) }
{
    let sizes = r.sizes;
    *answer = [
        kind_word(r.opened),
        sizes.vertices,
        sizes.points,
        sizes.lines,
        sizes.areas,
        sizes.volumes,
        sizes.curves,
        sizes.curve_vertices,
    ];
    refusal(r.opened)
}
