// A line of the file of published roots: a remark, which `#` starts, or an argument and its root, each eight hexadecimal digits.
ghost use Rattle.std.specs.Prelude.{◌+◌, ◌<◌, ◌≤◌, length, IfSome};

const LINE_END: u8 = 10;

// An `Option` of a `Result` would say the same: three names say it more plainly.
#[derive(Clone, Copy)]
pub enum Row {
    Remark,
    Pair(u32, u32),
    Broken,
}

// Where the line that has the byte at from ends: at its line end, or at the end of the text.
pub fn line_end(text: &[u8], from: usize) -> usize
    requires { from ≤ length text.now }
    ensures { (from ≤ result) × (result ≤ length text.now) }
{
    match text[from..].iter().position(|b| *b == LINE_END) {
        Some(n) => from + n,
        None => text.len(),
    }
}

// What a line without its end says.
pub fn row_of(line: &[u8]) -> Row {
    if line.starts_with(b"#") {
        return Row::Remark;
    }
    match pair_of(line) {
        Some((argument, root)) => Row::Pair(argument, root),
        None => Row::Broken,
    }
}

fn pair_of(line: &[u8]) -> Option<(u32, u32)> {
    if line.len() != 17 || line[8] != b' ' {
        return None;
    }
    let argument = word_of(&line[..8])?;
    let root = word_of(&line[9..])?;
    Some((argument, root))
}

// The number that up to eight hexadecimal digits stand for. The library's `from_str_radix` would take a sign and small letters too.
fn word_of(glyphs: &[u8]) -> Option<u32>
    requires { length glyphs.now ≤ 8 }
{
    let mut bits = 0;
    for glyph in glyphs {
        let value = digit(*glyph)?;
        bits = 16 * bits + value;
    }
    Some(bits)
}

// The value of a hexadecimal digit. The library's `to_digit` would take small letters too.
fn digit(glyph: u8) -> Option<u32>
    ensures { IfSome result (λ d. d < 16) }
{
    match glyph {
        b'0'..=b'9' => Some((glyph - b'0') as u32),
        b'A'..=b'F' => Some((glyph - b'A' + 10) as u32),
        _ => None,
    }
}
