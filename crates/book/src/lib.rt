// The midpoint book, over cells that the host lends: an index of the pairs, whose entry e is the vertex base + e.
#![tactic(auto)]

ghost use Rattle.std.specs.Prelude.{◌≡◌};
ghost use Rattle.geom.specs.Book.{simplices, pair};
ghost use Rattle.geom.specs.Kinds.{kind_of};
ghost use Rattle.book.specs.Answers.{Still, InUse, Kept, Asked};

use geom::kind::Kind;

// What does not fit: an entry of the book, or a row of a list.
#[derive(Clone, Copy, PartialEq, Eq)]
pub struct Full;

// The book: the cells, how many entries are made and how many there may be, and the vertex of the first.
#[derive(Drop)]
pub struct Book<'a> {
    pub cells: &'a mut [u32],
    pub made: usize,
    pub room: usize,
    pub base: usize,
}

// Cubes only: [a,a] gives a itself, with no entry.
fn still(kind: Kind, a: u32, b: u32) -> bool
    ensures { Still (kind_of kind) a b result }
{
    match kind {
        Kind::Cubes => a == b,
        Kind::Simplices => false,
    }
}

impl Book<'_> {
    // A pair that is in the book gives its vertex, else a vertex is made, the next number, if there is room for its entry.
    fn entry(&mut self, a: u32, b: u32) -> Result<u32, Full>
        requires { InUse self.old }
        ensures kept { Kept self.old self.new }
        ensures answered { Asked simplices self.old (pair a b) self.new result }
    {
        let made = self.made;
        let cells = &mut *self.cells;
        match index::find(cells, made, a, b) {
            Ok(entry) => Ok((self.base + entry) as u32),
            Err(at) => {
                if self.room <= made {
                    return Err(Full);
                }
                index::enter(cells, made, at, a, b);
                self.made = made + 1;
                Ok((self.base + made) as u32)
            }
        }
    }

    // The midpoint of [a,b] by the rule of the kind.
    pub fn midpoint(&mut self, kind: Kind, a: u32, b: u32) -> Result<u32, Full>
        requires { InUse self.old }
        ensures kept { Kept self.old self.new }
        ensures answered { Asked (kind_of kind) self.old (pair a b) self.new result }
    {
        if still(kind, a, b) {
            return Ok(a);
        }
        self.entry(a, b)
    }
}
