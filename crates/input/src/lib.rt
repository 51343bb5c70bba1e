// A source is read into lent bytes, until they are full or the source ends.
#![tactic(auto)]

ghost use Rattle.std.specs.Io.KnownBytes.{Consumes, IsAtEnd};
ghost use Rattle.std.specs.Prelude.{◌<◌, ◌≤◌, length, take, IfOk};

use std::io;
use std::io::Read;

// The library's `read_exact` says nothing of a source that ends before the buffer is full, and its `read_to_end` takes the heap.
//
// How many bytes were put at the start of buf, which are the source's next ones: fewer than it holds only where the source ended.
pub fn read_full<R: Read>(source: &mut R, buf: &mut [u8]) -> io::Result<usize>
    ensures bound { IfOk result (λ n. n ≤ length buf.new) }
    ensures bytes { IfOk result (λ n. Consumes (R.remaining source.old) (R.remaining source.new) (take n buf.new)) }
    ensures ended { IfOk result (λ n. n < length buf.new → IsAtEnd (R.remaining source.new)) }
{
    let mut done = 0;
    while done < buf.len() {
        let n = source.read(&mut buf[done..])?;
        if n == 0 {
            break;
        }
        done += n;
    }
    Ok(done)
}
