// A bench: the eight lent slices of a mesh in memory.
ghost use Rattle.std.specs.Prelude.{◌≡◌};
ghost use Rattle.geom.specs.Lent.{words_of, words_on};

// A bench that is read.
#[derive(Clone, Copy)]
pub struct Bench<'a> {
    // 4 numbers a vertex.
    pub positions: &'a [f32],
    // 3 words a vertex: flags, tag, k.
    pub marks: &'a [u32],
    pub points: &'a [u32],
    pub lines: &'a [u32],
    pub areas: &'a [u32],
    pub volumes: &'a [u32],
    // 2 words a curve: tag, vertex count.
    pub curves: &'a [u32],
    // 2 words a curve vertex: vertex number, and the parity of the step to the next.
    pub steps: &'a [u32],
}

// A bench that is written.
#[derive(Drop)]
pub struct BenchMut<'a> {
    pub positions: &'a mut [f32],
    pub marks: &'a mut [u32],
    pub points: &'a mut [u32],
    pub lines: &'a mut [u32],
    pub areas: &'a mut [u32],
    pub volumes: &'a mut [u32],
    pub curves: &'a mut [u32],
    pub steps: &'a mut [u32],
}

impl<'a> BenchMut<'a> {
    // The same bench, to be read.
    pub fn read(&self) -> Bench<'_>
        ensures { words_of result ≡ words_on self.now }
    {
        Bench {
            positions: &*self.positions,
            marks: &*self.marks,
            points: &*self.points,
            lines: &*self.lines,
            areas: &*self.areas,
            volumes: &*self.volumes,
            curves: &*self.curves,
            steps: &*self.steps,
        }
    }
}

// What a refinement works with beside its two benches: the cells of the midpoint book, and those of smoothing.
#[derive(Drop)]
pub struct Work<'a> {
    pub book: &'a mut [u32],
    // 4 numbers a vertex.
    pub sums: &'a mut [f32],
    // 2 words a vertex.
    pub tallies: &'a mut [u32],
}
