// An index over cells that the host lends: keys of two words [a,b], six words a cell. Entry e has its key and the two entries below it in row e,
// [a, b, left, right]; behind the rows each bucket has [root, recent]. A key's bits lead from the root to its entry, so a search passes no more than
// 64 entries of other keys, whatever the keys are. Nothing is cleared at the start: a new entry writes its row, a root is believed only where it
// is below `made` and its key falls in that bucket, and a recent entry, looked at first, only where its key is the one asked for.
#![tactic(auto)]

ghost use Rattle.std.specs.Prelude.{◌≡◌, ◌&&◌, [], ◌∷◌, ◌+◌, ◌*◌, ◌≤◌, ◌<◌, min, eqb, length};
ghost use Rattle.index.specs.Cells.{pairs, word_at, cells};
ghost use Rattle.index.specs.Trees.{Linked};
ghost use Rattle.index.specs.Answers.{InBucket, Sought, Names, Believed, Free, Entered};

// The words of a row.
pub const ROW: usize = 4;
// The words of a cell: a row, and a bucket's two.
pub const CELL: usize = 6;
// The link that leads nowhere.
const NONE: usize = 0xFFFF_FFFF;

// Word k of a row.
fn word_at(words: &[u32], row: usize, k: usize) -> u32
    requires { 4 * row + k < length words.now }
    ensures { result ≡ word_at pairs words.now row k }
{
    words[ROW * row + k]
}

// How many buckets there are: the lent cells, and no more than a word can count.
fn buckets(cells: usize) -> usize
    ensures { result ≡ min cells 4294967295 }
{
    if cells < 4294967295 {
        return cells;
    }
    4294967295
}

// The bucket of a key. Meshes ask for pairs of near numbers one after the other, so near pairs have near buckets, which a cache still has; nothing is
// lost where many share one, since a tree stands behind it. It takes no division.
fn bucket(cells: usize, a: u32, b: u32) -> usize
    requires { 0 < cells }
    ensures { InBucket pairs cells (a ∷ b ∷ []) result }
{
    let range = buckets(cells);
    let mixed = (a as u64 * 25 + b as u64 * 9) % 4294967296;
    let turned = (mixed << u32::leading_zeros(range as u32)) % 4294967296;
    (turned * range as u64 / 4294967296) as usize
}

// Whether an entry's key is [a,b]: [b,a] is another.
fn same(first: u32, second: u32, a: u32, b: u32) -> bool
    ensures { result ≡ eqb first a && eqb second b }
{
    (first == a) & (second == b)
}

// Whether a link leads to the entry of [a,b].
fn names(words: &[u32], made: usize, link: usize, a: u32, b: u32) -> bool
    requires { made ≤ cells pairs words.now }
    ensures { Names words.now made (a ∷ b ∷ []) link result }
{
    if made <= link {
        return false;
    }
    same(word_at(words, link, 0), word_at(words, link, 1), a, b)
}

// Whether a link leads to an entry of a bucket.
fn believed(words: &[u32], made: usize, link: usize, home: usize) -> bool
    requires { made ≤ cells pairs words.now }
    ensures { Believed words.now made home link result }
{
    if made <= link {
        return false;
    }
    let its = bucket(
        words.len() / CELL,
        word_at(words, link, 0),
        word_at(words, link, 1),
    );
    its == home
}

// The search for the key [a,b]: the entry that was found, or else the word from which a new entry hangs. Each turn takes one of its 64 bits: an entry at level 64 has them all, so it is the key's own.
pub fn find(words: &[u32], made: usize, a: u32, b: u32) -> Result<usize, usize>
    requires { Linked pairs words.now made }
    ensures { Sought words.now made (a ∷ b ∷ []) result }
{
    let cells = words.len() / CELL;
    if cells == 0 {
        return Err(0);
    }
    let home = bucket(cells, a, b);
    let recent = word_at(words, cells, 2 * home + 1) as usize;
    if names(words, made, recent, a, b) {
        return Ok(recent);
    }
    let root = word_at(words, cells, 2 * home) as usize;
    if !believed(words, made, root, home) {
        return Err(ROW * cells + 2 * home);
    }
    let mut rest = a as u64 * 4294967296 + b as u64;
    let mut depth: usize = 0;
    let mut link = root;
    let answer = loop {
        let first = word_at(words, link, 0);
        let second = word_at(words, link, 1);
        if same(first, second, a, b) {
            break Ok(link);
        }
        let side = (rest % 2) as usize;
        let next = word_at(words, link, 2 + side) as usize;
        if next == NONE {
            break Err(ROW * link + 2 + side);
        }
        rest = rest / 2;
        depth += 1;
        link = next;
    };
    answer
}

// A new entry: the key, nothing below it, and the links to it.
pub fn enter(words: &mut [u32], made: usize, at: usize, a: u32, b: u32)
    requires { Free pairs words.old made (a ∷ b ∷ []) at }
    ensures { Entered pairs words.old made (a ∷ b ∷ []) words.new }
{
    let cells = words.len() / CELL;
    let home = bucket(cells, a, b);
    words[ROW * made] = a;
    words[ROW * made + 1] = b;
    words[ROW * made + 2] = NONE as u32;
    words[ROW * made + 3] = NONE as u32;
    words[at] = made as u32;
    words[ROW * cells + 2 * home + 1] = made as u32;
}
