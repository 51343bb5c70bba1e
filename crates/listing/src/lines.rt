// The lines of the listing, each method of a text that grows in a lent buffer.
ghost use Rattle.std.specs.Prelude.{List, ℕ, [], ◌∷◌, ◌-◌, ◌≡◌, ◌*◌, ◌+◌, ◌≤◌, length};
ghost use Rattle.geom.specs.Listing.{decimal as decimal_of, letter as letter_of, spaced as spaced_word, bits};
ghost use Rattle.geom.specs.Memory.{first_of, curve_row, parity_of};
ghost use Rattle.geom.specs.Refusals.{curve_lengths};
ghost use Rattle.judge.specs.Words.{Column, Elements, word_at};
ghost use Rattle.listing.specs.Text.{Adds, HasRoom, together, coordinate_text, vertex_text, number_text, letter_text, line_text, point_text, element_text, curve_text};

use crate::digits::{glyph, hexadecimal, pattern};
use geom::words::{number, word};

pub const NEWLINE: u8 = 10;

const SPACE: u8 = 32;

// A text in a lent buffer, and the place after it.
#[derive(Drop)]
pub struct Text<'a> {
    pub out: &'a mut [u8],
    pub at: usize,
}

// What a word of a row is in print.
trait Entry {
    ghost text: { ℕ → List ℕ };

    fn put(out: &mut Text, word: usize)
        requires { HasRoom (text word) out.old }
        ensures { Adds (text word) out.old out.new };
}

// A vertex number.
struct Number;

impl Entry for Number {
    ghost text = { λ v. spaced_word (decimal_of v) };

    fn put(out: &mut Text, word: usize) {
        out.spaced(word);
    }
}

// e or o, for the parity that a word stands for.
struct Letter;

impl Entry for Letter {
    ghost text = { λ v. letter_of (parity_of v) };

    fn put(out: &mut Text, word: usize) {
        out.say(if word == 0 { b" e" } else { b" o" });
    }
}

impl<'a> Text<'a> {
    // One byte.
    pub fn byte(&mut self, b: u8)
        requires { HasRoom (b ∷ []) self.old }
        ensures { Adds (b ∷ []) self.old self.new }
    {
        self.out[self.at] = b;
        self.at += 1;
    }

    // Bytes as they are.
    pub fn say(&mut self, bytes: &[u8])
        requires { HasRoom bytes.now self.old }
        ensures { Adds bytes.now self.old self.new }
    {
        let end = self.at + bytes.len();
        self.out[self.at..end].copy_from_slice(bytes);
        self.at = end;
    }

    // A number in decimal.
    pub fn decimal(&mut self, n: usize)
        requires { HasRoom (decimal_of n) self.old }
        ensures { Adds (decimal_of n) self.old self.new }
    {
        if n < 10 {
            self.byte(glyph(n));
        } else {
            self.decimal(n / 10);
            self.byte(glyph(n % 10));
        }
    }

    // A number after a space.
    pub fn spaced(&mut self, n: usize)
        requires { HasRoom (spaced_word (decimal_of n)) self.old }
        ensures { Adds (spaced_word (decimal_of n)) self.old self.new }
    {
        self.byte(SPACE);
        self.decimal(n);
    }

    // The bits of a coordinate after a space.
    fn coordinate(&mut self, c: f32)
        requires { HasRoom (bits c) self.old }
        ensures { Adds (bits c) self.old self.new }
    {
        self.byte(SPACE);
        self.at = hexadecimal(pattern(c), self.out, self.at);
    }

    // The bits of x, y, z, w, which stand from a place on.
    fn position(&mut self, positions: &[f32], from: usize)
        requires from_in_bounds { from + 4 ≤ length positions.now }
        requires room { HasRoom (together (coordinate_text positions.now from) 4) self.old }
        ensures { Adds (together (coordinate_text positions.now from) 4) self.old self.new }
    {
        for i in 0..4 {
            self.coordinate(number(positions, from + i));
        }
    }

    // v: number and bits of x, y, z, w in hexadecimal.
    fn vertex(&mut self, positions: &[f32], i: usize)
        requires i_in_bounds { 4 * i + 4 ≤ length positions.now }
        requires room { HasRoom (vertex_text positions.now i) self.old }
        ensures { Adds (vertex_text positions.now i) self.old self.new }
    {
        self.byte(b'v');
        self.spaced(i);
        self.position(positions, 4 * i);
        self.byte(NEWLINE);
    }

    // The vertices.
    pub fn vertex_lines(&mut self, positions: &[f32], count: usize)
        requires count_in_bounds { 4 * count ≤ length positions.now }
        requires room { HasRoom (together (vertex_text positions.now) count) self.old }
        ensures { Adds (together (vertex_text positions.now) count) self.old self.new }
    {
        for i in 0..count {
            self.vertex(positions, i);
        }
    }

    // One word of each row.
    fn column<E: Entry>(&mut self, words: &[u32], width: usize, column: usize, rows: usize)
        requires column { Column words.now width column rows }
        requires room { HasRoom (together (λ i. E.text (word_at words.now width column i)) rows) self.old }
        ensures { Adds (together (λ i. E.text (word_at words.now width column i)) rows) self.old self.new }
    {
        for i in 0..rows {
            E::put(self, word(words, width * i + column));
        }
    }

    // The line of a point, an element or a curve: vertex numbers, then parities. Both stand in the words of one list, each in its own column.
    fn line(
        &mut self,
        name: u8,
        words: &[u32],
        width: usize,
        column: usize,
        vertices: usize,
        mark: usize,
        parities: usize,
    )
        requires column { Column words.now width column vertices }
        requires column_2 { Column words.now width mark parities }
        requires room { HasRoom (line_text name words.now width column vertices mark parities) self.old }
        ensures { Adds (line_text name words.now width column vertices mark parities) self.old self.new }
    {
        self.byte(name);
        self.column::<Number>(words, width, column, vertices);
        self.column::<Letter>(words, width, mark, parities);
        self.byte(NEWLINE);
    }

    // p: the vertex number.
    pub fn point_lines(&mut self, words: &[u32], rows: usize)
        requires rows_in_bounds { rows ≤ length words.now }
        requires room { HasRoom (together (point_text words.now) rows) self.old }
        ensures { Adds (together (point_text words.now) rows) self.old self.new }
    {
        for i in 0..rows {
            self.line(b'p', words, 1, i, 1, i, 0);
        }
    }

    // l, a, s: vertex numbers, and e or o.
    pub fn element_lines(&mut self, name: u8, words: &[u32], corners: usize, rows: usize)
        requires elements { Elements words.now corners rows }
        requires room { HasRoom (together (element_text name words.now corners) rows) self.old }
        ensures { Adds (together (element_text name words.now corners) rows) self.old self.new }
    {
        for i in 0..rows {
            let row = (corners + 1) * i;
            self.line(name, words, 1, row, corners, row + corners, 1);
        }
    }

    // c: the vertices, and e or o after all of them: a curve has one parity fewer than vertices. The curves' vertices stand one curve
    // after the other.
    pub fn curve_lines(&mut self, words: &[u32], rows: usize, steps: &[u32])
        requires rows_in_bounds { 2 * rows ≤ length words.now }
        requires steps_in_bounds { 2 * curve_lengths (first_of (curve_row words.now) rows) ≤ length steps.now }
        requires room { HasRoom (together (curve_text words.now steps.now) rows) self.old }
        ensures { Adds (together (curve_text words.now steps.now) rows) self.old self.new }
    {
        let mut start = 0;
        for i in 0..rows {
            let count = word(words, 2 * i + 1);
            let from = 2 * start;
            let parities = count.saturating_sub(1);
            self.line(b'c', steps, 2, from, count, from + 1, parities);
            start += count;
        }
    }
}
