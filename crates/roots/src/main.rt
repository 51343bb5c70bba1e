// Replays published square roots, and walks patterns of every exponent and both signs, each root held against what a root means.
//
// `stdout` has what it must print. No number there comes from this program:
// - the published roots are the rows of the file, `grep -vc '^#' data/square-roots-newlib-3.3.0.txt`;
// - the patterns walked, by kind, are what this prints (`own` are the zeros and +infinity, `below` has -infinity):
//     python3 -c "
//     from collections import Counter
//     walked = [i * 0x9E3779B1 % 2**32 for i in range(100000)] + [f * 2**23 + d for f in range(512) for d in (0, 2**23 - 1)]
//     def kind(p):
//         if p % 2**31 > 0x7F800000: return 'nan'
//         if p in (0, 2**31, 0x7F800000): return 'own'
//         return 'below' if p > 2**31 else 'above'
//     print(len(walked), Counter(map(kind, walked)))"
// - none is wrong, since IEEE 754 asks that of every root.
#![tactic(auto)]

mod judge;
mod replay;
mod row;
mod walk;

use std::io::Write;
use std::rt::Files;
use std::{fs, io};

fn main(rt: HostRuntime) -> io::Result<()> {
    let replayed = replay_published(&rt);
    walk_patterns(&rt)?;
    replayed
}

// Replays the published roots, and prints how many agree and the first row that does not.
fn replay_published<R: Files + Print>(rt: &R) -> io::Result<()> {
    let mut file = fs::open(rt, "square-roots-newlib-3.3.0.txt")?;
    let mut text = [0; 65536];
    let n = input::read_full(&mut file, &mut text)?;
    print_replay(rt, &text[..n])
}

fn print_replay(rt: &impl Print, text: &[u8]) -> io::Result<()> {
    let done = replay::replay(text);
    println!(rt; "published roots: {} of {} agree", done.agree, done.rows)?;
    if done.agree < done.rows {
        print!(rt; "first that does not: ")?;
        print_line(rt, text, done.first)?;
    }
    Ok(())
}

fn print_line(rt: &impl Print, text: &[u8], from: usize) -> io::Result<()> {
    if from < text.len() {
        let end = row::line_end(text, from);
        io::writer(rt).write_all(&text[from..end])?;
        println!(rt; "")?;
    }
    Ok(())
}

// Walks the spread patterns and those at each field's ends, and prints how many there are of each kind and the first that is wrong.
fn walk_patterns(rt: &impl Print) -> io::Result<()> {
    let done = walk::at_field_ends(walk::spread(walk::start()));
    print!(rt;
        "walked: {} patterns, {} above zero, ",
        walk::visited(done),
        done.above
    )?;
    print!(rt;
        "{} below zero, {} that are their own roots, ",
        done.below, done.own
    )?;
    println!(rt; "{} NaN patterns left out, {} wrong", done.nans, done.wrong)?;
    if 0 < done.wrong {
        println!(rt; "first that is wrong: {:08x}", done.first)?;
    }
    Ok(())
}
