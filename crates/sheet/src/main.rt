// The program `sheet`. It reads standard input, has its text worked out, and writes it; nothing else is done here.
#![tactic(auto)]

use std::io;
use std::io::Write;

fn main(rt: HostRuntime) -> io::Result<()> {
    let mut bytes = [0; page::INPUT];
    let n = input::read_full(&mut rt.reader(), &mut bytes)?;
    let mut text = [0; page::TEXT];
    let m = page::answer(&bytes, n, &mut text);
    io::writer(&rt).write_all(&text[..m])
}
