// Lists in print: each row on a line of its own, its name first. Words are decimal, and numbers are the eight hexadecimal digits of their bits.
ghost use Rattle.std.specs.Prelude.{◌<◌};

use listing::digits::{hexadecimal, pattern};
use std::io;
use std::io::Write;

// A number after a space.
pub fn spaced<W: Write>(out: &mut W, n: usize) -> io::Result<()> {
    write!(out, " {n}")
}

// What a list is made of.
pub trait Entry {
    fn print<W: Write>(&self, out: &mut W) -> io::Result<()>;
}

impl Entry for u32 {
    fn print<W: Write>(&self, out: &mut W) -> io::Result<()> {
        spaced(out, *self as usize)
    }
}

impl Entry for f32 {
    fn print<W: Write>(&self, out: &mut W) -> io::Result<()> {
        let mut text = [b' '; 9];
        hexadecimal(pattern(*self), &mut text, 1);
        out.write_all(&text)
    }
}

// A row starts where the width says so.
fn head<W: Write>(out: &mut W, name: &[u8], i: usize, width: usize) -> io::Result<()>
    requires { 0 < width }
{
    if i % width == 0 {
        out.write_all(b"\n")?;
        out.write_all(name)?;
    }
    Ok(())
}

// So many rows of a list.
pub fn rows<W: Write, E: Entry>(
    out: &mut W,
    name: &[u8],
    list: &[E],
    width: usize,
    count: usize,
) -> io::Result<()>
    requires { 0 < width }
{
    for (i, entry) in list.iter().enumerate() {
        if count <= i / width {
            break;
        }
        head(out, name, i, width)?;
        entry.print(out)?;
    }
    Ok(())
}
