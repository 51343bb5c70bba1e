// A reader set up over one file walks it part by part: a byte of the header, a list with its count first, or that nothing is left over. A list comes
// with its lent cells and with the number of vertices; curves with the lent cells of their vertices too. Each method is thin: it has the work done on
// the slice and the place, and moves the reader on.
ghost use Rattle.std.specs.Prelude.{◌≡◌, ◌≤◌};
ghost use Rattle.reading.specs.Parts as Part;
ghost use Rattle.reading.specs.Parts.{Rows, Takes};
ghost use Rattle.reading.specs.Walk.{moved};

use crate::part::{Taken, curve_list, left_over, past};
use fields::field::byte_at;
use fields::listed::{element_list, point_list, vertex_list};
use geom::kind::Kind;
use judge::counts::{area_corners, volume_corners};

#[derive(Drop)]
pub struct Reader<'a> {
    pub src: &'a [u8],
    pub at: usize,
}

impl<'a> Reader<'a> {
    // A reader over a file, at a place.
    pub fn new(src: &'a [u8], at: usize) -> Reader<'a>
        ensures { (result.src ≡ src.entry) × (result.at ≡ at) }
    {
        Reader { src, at }
    }

    // Past what was taken; a reader that was refused stays where it is.
    fn go_on(&mut self, t: Taken) -> Taken
        ensures { (result ≡ t) × (self.new ≡ moved self.old t) }
    {
        self.at = t.at;
        t
    }

    // A byte of the header.
    pub fn byte(&mut self) -> Taken
        ensures { Takes Part.Byte self.old.src.now self.old.at result × (self.new ≡ moved self.old result) }
    {
        let t = past(byte_at(self.src, self.at), self.at, 1, 0);
        self.go_on(t)
    }

    // The list of vertices.
    pub fn vertices(&mut self, lent: usize) -> Taken
        ensures { Takes (Part.Vertices lent) self.old.src.now self.old.at result × (self.new ≡ moved self.old result) }
    {
        let t = past(vertex_list(self.src, self.at, lent), self.at, 4, 25);
        self.go_on(t)
    }

    // The list of points.
    pub fn points(&mut self, lent: usize, count: usize) -> Taken
        ensures { Takes (Part.Points lent count) self.old.src.now self.old.at result × (self.new ≡ moved self.old result) }
    {
        let t = past(point_list(self.src, self.at, lent, count), self.at, 4, 4);
        self.go_on(t)
    }

    // The list of lines.
    pub fn lines(&mut self, lent: usize, count: usize) -> Taken
        ensures { Takes (Part.Lines lent count) self.old.src.now self.old.at result × (self.new ≡ moved self.old result) }
    {
        self.elements(lent, 2, count)
    }

    // The list of areas of a kind.
    pub fn areas(&mut self, kind: Kind, lent: usize, count: usize) -> Taken
        ensures { Takes (Part.Areas kind lent count) self.old.src.now self.old.at result × (self.new ≡ moved self.old result) }
    {
        self.elements(lent, area_corners(kind), count)
    }

    // The list of volumes of a kind.
    pub fn volumes(&mut self, kind: Kind, lent: usize, count: usize) -> Taken
        ensures { Takes (Part.Volumes kind lent count) self.old.src.now self.old.at result × (self.new ≡ moved self.old result) }
    {
        self.elements(lent, volume_corners(kind), count)
    }

    // A list of lines, areas or volumes.
    fn elements(&mut self, lent: usize, corners: usize, count: usize) -> Taken
        requires { corners ≤ 8 }
        ensures { Rows result self.old.src.now self.old.at lent corners count × (self.new ≡ moved self.old result) }
    {
        let field = element_list(self.src, self.at, lent, corners, count);
        let t = past(field, self.at, 4, 4 * corners + 1);
        self.go_on(t)
    }

    // The list of curves.
    pub fn curves(&mut self, lent: usize, count: usize, room: usize) -> Taken
        ensures { Takes (Part.Curves lent count room) self.old.src.now self.old.at result × (self.new ≡ moved self.old result) }
    {
        let t = curve_list(self.src, self.at, lent, count, room);
        self.go_on(t)
    }

    // That nothing is left over.
    pub fn end(&mut self) -> Taken
        ensures { Takes Part.End self.old.src.now self.old.at result × (self.new ≡ moved self.old result) }
    {
        let t = past(left_over(self.src, self.at), self.at, 0, 0);
        self.go_on(t)
    }
}
