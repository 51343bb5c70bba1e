// The listing of a mesh in memory and the line of a refusal, as bytes in a lent buffer.
#![tactic(auto)]

pub mod digits;
pub mod lines;

ghost use Rattle.std.specs.Prelude.{List, ℕ, ◌≤◌, length};
ghost use Rattle.geom.specs.Kinds.{kind_of};
ghost use Rattle.geom.specs.Lent.{words_of};
ghost use Rattle.geom.specs.Listing.{refusal as refusal_of};
ghost use Rattle.listing.specs.Printed.{Printed, heading_of, listed, with_marks, Stated};
ghost use Rattle.listing.specs.Text.{Adds, HasRoom};

use geom::answer::Sizes;
use geom::bench::Bench;
use geom::kind::Kind;
use judge::counts::{area_corners, volume_corners};
use lines::{NEWLINE, Text};

// First the number of whole passes.
fn heading(text: &mut Text, count: u8)
    requires { HasRoom (heading_of count) text.old }
    ensures { Adds (heading_of count) text.old text.new }
{
    text.say(b"passes");
    text.spaced(count as usize);
    text.byte(NEWLINE);
}

// The listing of the mesh on a bench: v, p, l, a, s (volumes), c. Answers how many bytes it has.
pub fn listing(passes: u8, kind: Kind, sizes: Sizes, bench: &Bench, out: &mut [u8]) -> usize
    requires { Stated passes (kind_of kind) sizes (words_of bench.now) out.old }
    ensures { (marks : List ℕ) → Printed (listed passes (kind_of kind) sizes (with_marks marks (words_of bench.now))) out.old out.new result }
{
    let area = area_corners(kind);
    let volume = volume_corners(kind);
    let mut text = Text { out, at: 0 };
    heading(&mut text, passes);
    text.vertex_lines(bench.positions, sizes.vertices);
    text.point_lines(bench.points, sizes.points);
    text.element_lines(b'l', bench.lines, 2, sizes.lines);
    text.element_lines(b'a', bench.areas, area, sizes.areas);
    text.element_lines(b's', bench.volumes, volume, sizes.volumes);
    text.curve_lines(bench.curves, sizes.curves, bench.steps);
    text.at
}

// Of a refusal only its number and the number of whole passes. Answers how many bytes that has.
pub fn refusal(number: u8, passes: u8, out: &mut [u8]) -> usize
    requires { length (refusal_of number passes) ≤ length out.old }
    ensures { Printed (refusal_of number passes) out.old out.new result }
{
    let mut text = Text { out, at: 0 };
    text.say(b"refused");
    text.spaced(number as usize);
    text.say(b" after");
    text.spaced(passes as usize);
    text.byte(NEWLINE);
    text.at
}
