// A file is read onto the program's desk, and the mesh there refined and listed.
#![tactic(auto)]

ghost use Rattle.geom.specs.Book as Book;
ghost use Rattle.geom.specs.File.{figure};
ghost use Rattle.geom.specs.Lent.{words_on};
ghost use Rattle.geom.specs.Sheet.{SHEET_CELLS, refined_by};
ghost use Rattle.listing.specs.Printed.{Printed};
ghost use Rattle.desk.specs.Desk.{Lent, Ready};

use desk::{Arrays, area_words, look, volume_words};
use figure::load;
use geom::bench::BenchMut;
use listing::refusal;
use printing::refined;

// The file, read onto the first bench and refined; or only the refusal.
#[tactic(auto, using(printing::proofs::Lengths::refusal_short))]
fn on_both(
    depth: u8,
    time: u8,
    file: &[u8],
    mut first: BenchMut,
    second: BenchMut,
    out: &mut [u8],
) -> usize
    requires { Ready time file.now (words_on first) (words_on second) out.old }
    ensures { Printed (refined_by depth time (figure (λ (kind : Book.Kind). SHEET_CELLS) file.now)) out.old out.new result }
{
    let reading = load(file, &mut first, &second.read());
    let opened = reading.opened;
    match opened {
        Ok(kind) => refined(kind, reading.sizes, depth, time, first, second, out),
        Err(why) => refusal(u8::from(why), 0, out),
    }
}

// The same with fresh benches, of which the areas and volumes have as many words as the kind that the file says. They are lent here, array by array: a
// method of `Arrays` that lends them would take slices of arrays behind a reference, which the borrow checker doesn't cover.
pub fn on_first(depth: u8, time: u8, file: &[u8], out: &mut [u8]) -> usize
    requires { Lent time out.old }
    ensures { Printed (refined_by depth time (figure (λ (kind : Book.Kind). SHEET_CELLS) file.now)) out.old out.new result }
{
    let kind = look(file);
    let a = area_words(kind);
    let v = volume_words(kind);
    let mut first = Arrays::blank();
    let mut second = Arrays::blank();
    let bench = BenchMut {
        positions: &mut first.positions,
        marks: &mut first.marks,
        points: &mut first.points,
        lines: &mut first.lines,
        areas: &mut first.areas[..a],
        volumes: &mut first.volumes[..v],
        curves: &mut first.curves,
        steps: &mut first.steps,
    };
    let other = BenchMut {
        positions: &mut second.positions,
        marks: &mut second.marks,
        points: &mut second.points,
        lines: &mut second.lines,
        areas: &mut second.areas[..a],
        volumes: &mut second.volumes[..v],
        curves: &mut second.curves,
        steps: &mut second.steps,
    };
    on_both(depth, time, file, bench, other, out)
}
