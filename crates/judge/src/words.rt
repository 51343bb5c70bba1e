// Refusals 5 to 8: loops over the words of one list. A loop over words looks at each of them; one over elements or curves ends at the
// first that is refused.
ghost use Rattle.std.specs.Prelude.{◌≡◌, List, ℕ, ◌+◌, ◌*◌, ◌≤◌, ◌<◌, eqb, length, get_or, take, drop};
ghost use Rattle.geom.specs.declared.vertex.Vertex.{Vertex};
ghost use Rattle.geom.specs.Forms.{Numbers, form};
ghost use Rattle.geom.specs.Memory.{ElementRow, StepRow, first_of, vertex_row, vertex_row_in, element_row, curve_row, step_row, step_words, curve_parts};
ghost use Rattle.geom.specs.Refusals.{every, good_flags, good_parity, good_coordinate, good_position, good_number, good_curve, curve_lengths};
ghost use Rattle.judge.specs.Words.{column_below, words_below, Column, Elements, Parts};

use geom::words::word;

// Whether one word of each row is below the bound. Every row is looked at, so that the compiler takes several at once, and the place of the word
// goes from row to row by a sum, where the width isn't known to the compiler.
pub fn column_below(words: &[u32], width: usize, column: usize, rows: usize, bound: usize) -> bool
    requires column { Column words.now width column rows }
    requires width_bound { width ≤ 9 }
    ensures { result ≡ column_below words.now width column rows bound }
{
    let mut all = true;
    let mut at = column;
    for i in 0..rows {
        all = all & (word(words, at) < bound);
        at += width;
    }
    all
}

// Whether each of the first words is below the bound, which is as wide as they are: several are compared at once.
fn words_below(words: &[u32], end: usize, bound: u32) -> bool
    requires { end ≤ length words.now }
    ensures { result ≡ words_below words.now end bound }
{
    let mut all = true;
    for word in &words[..end] {
        all = all & (*word < bound);
    }
    all
}

// The same for any bound: no word reaches 2^32.
fn all_below(words: &[u32], end: usize, bound: usize) -> bool
    requires { end ≤ length words.now }
    ensures { result ≡ words_below words.now end bound }
{
    if bound < 4294967296 {
        return words_below(words, end, bound as u32);
    }
    true
}

// 5: each vertex has a flag byte of at most 15.
pub fn flags_hold(marks: &[u32], vertices: usize) -> bool
    requires { 3 * vertices ≤ length marks.now }
    ensures { (n : Numbers) (positions : List (form n).Coordinate) → result ≡ every (λ (v : (form n).Vertex). good_flags ((form n).flags v)) (first_of (vertex_row_in (form n) positions marks.now) vertices) }
{
    column_below(marks, 3, 0, vertices, 16)
}

// 5: each element has a parity of at most 1.
pub fn parities_hold(words: &[u32], corners: usize, rows: usize) -> bool
    requires { Elements words.now corners rows }
    ensures { result ≡ every (λ (e : ElementRow). good_parity e.parity) (first_of (element_row corners words.now) rows) }
{
    column_below(words, corners + 1, corners, rows, 2)
}

// 7: each corner of each element is below the count.
pub fn corners_hold(words: &[u32], corners: usize, rows: usize, count: usize) -> bool
    requires { Elements words.now corners rows }
    ensures { result ≡ every (λ (e : ElementRow). every (good_number count) e.corners) (first_of (element_row corners words.now) rows) }
{
    // Where every word is below the count, the parities too, so is every corner: no row is looked at by itself.
    if all_below(words, (corners + 1) * rows, count) {
        return true;
    }
    for i in 0..rows {
        if !column_below(words, 1, (corners + 1) * i, corners, count) {
            return false;
        }
    }
    true
}

// 7: each point is below the count.
pub fn points_hold(points: &[u32], rows: usize, count: usize) -> bool
    requires { rows ≤ length points.now }
    ensures { result ≡ every (good_number count) (first_of (λ (i : ℕ). get_or points.now i 0) rows) }
{
    all_below(points, rows, count)
}

// 7: each curve vertex is below the count.
pub fn steps_hold(steps: &[u32], rows: usize, count: usize) -> bool
    requires { 2 * rows ≤ length steps.now }
    ensures { result ≡ every (λ (s : StepRow). good_number count s.vertex) (first_of (step_row steps.now) rows) }
{
    column_below(steps, 2, 0, rows, count)
}

// 8: each curve has vertices.
pub fn curves_hold(curves: &[u32], rows: usize) -> bool
    requires { 2 * rows ≤ length curves.now }
    ensures { result ≡ every good_curve (first_of (curve_row curves.now) rows) }
{
    for i in 0..rows {
        if word(curves, 2 * i + 1) == 0 {
            return false;
        }
    }
    true
}

// 6: finite, from -1,024 to 1,024.
pub fn coordinate_holds(c: f32) -> bool
    ensures { result ≡ good_coordinate c }
{
    (-1024.0 <= c) & (c <= 1024.0)
}

// 6: each coordinate of each vertex.
pub fn positions_hold(positions: &[f32], vertices: usize) -> bool
    requires { 4 * vertices ≤ length positions.now }
    ensures { (marks : List ℕ) → result ≡ every (λ (v : Vertex). good_position v.position) (first_of (vertex_row positions.now marks) vertices) }
{
    let mut all = true;
    for coordinate in &positions[..4 * vertices] {
        all = all & coordinate_holds(*coordinate);
    }
    all
}

// 9: the curves' lengths add up to the curve vertices. What is left of the total is counted down, so no sum is formed.
pub fn lengths_hold(curves: &[u32], rows: usize, total: usize) -> bool
    requires { 2 * rows ≤ length curves.now }
    ensures { result ≡ eqb (curve_lengths (first_of (curve_row curves.now) rows)) total }
{
    let mut left = total;
    for i in 0..rows {
        let count = word(curves, 2 * i + 1);
        if left < count {
            return false;
        }
        left -= count;
    }
    left == 0
}

// 5: each step of one curve has a parity of at most 1; the word beside its last vertex is not looked at.
pub fn part_holds(steps: &[u32], start: usize, count: usize) -> bool
    requires { 2 * (start + count) ≤ length steps.now }
    ensures { (total : ℕ) → start + count ≤ total → result ≡ every good_parity (step_words (take count (drop start (first_of (step_row steps.now) total)))) }
{
    if count == 0 {
        return true;
    }
    column_below(steps, 2, 2 * start + 1, count - 1, 2)
}

// 5: the steps of each curve. The curves' vertices stand one curve after the other.
pub fn parts_hold(curves: &[u32], rows: usize, steps: &[u32], total: usize) -> bool
    requires { Parts curves.now rows steps.now total }
    ensures { result ≡ every (λ (part : List StepRow). every good_parity (step_words part)) (curve_parts (first_of (curve_row curves.now) rows) (first_of (step_row steps.now) total)) }
{
    let mut start = 0;
    for i in 0..rows {
        let count = word(curves, 2 * i + 1);
        if !part_holds(steps, start, count) {
            return false;
        }
        start += count;
    }
    true
}
