// Replays stored files with stored answers of the Rust, tag and k by the rule of the smaller k: `data/files` has what is read, `stdout` what must be printed.
// Both are written by the comparison under oracle/, and no word of them comes from this program.
//
// A record is five bytes (the length of its name, depth, smooth_time, and the length of the file, high byte first), the name, and a file of
// the format that README has. Each is read, refined, cut into simplices if it has cubes, and given normals.
#![tactic(auto)]

mod desk;
mod mesh;
mod print;

ghost use Rattle.std.specs.Prelude.{◌<◌, length, IfSome};

use desk::on_desk;
use std::io::Write;
use std::{fs, io};

fn main(rt: HostRuntime) -> io::Result<()> {
    let mut file = fs::open(&rt, "files")?;
    // As many bytes as the stored files may have, and one more.
    let mut text = [0; 131073];
    let n = input::read_full(&mut file, &mut text)?;
    let mut out = io::writer(&rt);
    if n == text.len() {
        return out.write_all(b"the file is too long\n");
    }
    replay(&mut out, &text[..n])
}

// A record, and the text behind it.
#[derive(Clone, Copy)]
struct Record<'a> {
    name: &'a [u8],
    depth: u8,
    time: u8,
    file: &'a [u8],
    rest: &'a [u8],
}

// The record that a text begins with; none where the text ends within it.
fn first_of<'a>(text: &'a [u8]) -> Option<Record<'a>>
    ensures { IfSome result (λ r. length r.rest.now < length text.now) }
{
    if text.len() < 5 {
        return None;
    }
    let start = 5 + text[0] as usize;
    let end = start + u16::from_be_bytes([text[3], text[4]]) as usize;
    if text.len() < end {
        return None;
    }
    Some(Record {
        name: &text[5..start],
        depth: text[1],
        time: text[2],
        file: &text[start..end],
        rest: &text[end..],
    })
}

// Every record, its name printed first, to the end of the text or to what is no record.
fn replay<W: Write>(out: &mut W, text: &[u8]) -> io::Result<()> {
    let mut rest = text;
    while !rest.is_empty() {
        let Some(next) = first_of(rest) else {
            return out.write_all(b"the file ends within a record\n");
        };
        out.write_all(next.name)?;
        on_desk(out, next.depth, next.time, next.file)?;
        out.write_all(b"\n")?;
        rest = next.rest;
    }
    Ok(())
}
