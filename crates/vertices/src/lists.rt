// What a pass hands to the vertex rules, in lent cells that may have room for more: the old vertices, the book's new pairs, and the new lists.
ghost use Rattle.std.specs.Prelude.{◌≡◌, ◌&&◌, eqb};

// The vertices in the first rows. The two slices may come from two loans of a caller's, so each has its lifetime.
#[derive(Clone, Copy)]
pub struct Vertices<'a, 'b> {
    pub positions: &'a [f32],
    pub marks: &'b [u32],
    pub count: usize,
}

// The pairs in so many entries of the book, from one on.
#[derive(Clone, Copy)]
pub struct NewPairs<'a> {
    pub book: &'a [u32],
    pub start: usize,
    pub new: usize,
}

// The elements in the first rows.
#[derive(Clone, Copy)]
pub struct ElementList<'a> {
    pub words: &'a [u32],
    pub count: usize,
}

// The lists that are smoothed over.
#[derive(Clone, Copy)]
pub struct Lists<'a> {
    pub lines: ElementList<'a>,
    pub areas: ElementList<'a>,
    pub volumes: ElementList<'a>,
}

impl<'a> Lists<'a> {
    // Whether there is nothing to smooth over: no line, no area and no volume.
    pub fn are_empty(&self) -> bool
        ensures { result ≡ (eqb self.now.lines.count 0 && (eqb self.now.areas.count 0 && eqb self.now.volumes.count 0)) }
    {
        self.lines.count == 0 && self.areas.count == 0 && self.volumes.count == 0
    }
}
