// From the bytes of standard input to the bytes that are printed, as one function.
#![tactic(auto)]

ghost use Rattle.geom.specs.Sheet.{sheet as sheet_of};
ghost use Rattle.page.specs.Page.{Into, Written, Answered};

use geom::refusal::Refusal;
use listing::refusal;
use loading::on_first;

// A smooth_time byte is 0 or 1.
const LAST_TIME: u8 = 1;

// As many bytes as an input may have, and one more: an input that fills a buffer of so many is longer than it may be, whatever follows.
pub const INPUT: usize = 65_537;

// Room for every text: none has more than 144,395 bytes, which is what 1,024 entries in each list can take.
pub const TEXT: usize = 147_456;

// What is printed for an input: the listing, or only the refusal. Any bytes, as many as there are.
#[tactic(auto, using(printing::proofs::Lengths::refusal_short))]
fn sheet(input: &[u8], out: &mut [u8; TEXT]) -> usize
    ensures { Written (sheet_of input.now) out.old out.new result }
{
    if 65_536 < input.len() {
        return refusal(u8::from(Refusal::Room), 0, out);
    }
    if input.len() < 2 {
        return refusal(u8::from(Refusal::Short), 0, out);
    }
    let time = input[1];
    if LAST_TIME < time {
        return refusal(u8::from(Refusal::Mark), 0, out);
    }
    on_first(input[0], time, &input[2..], out)
}

// What is printed for the input of which n bytes were read into the buffer: all of them, or as many as the buffer holds.
pub fn answer(buffer: &[u8], n: usize, out: &mut [u8; TEXT]) -> usize
    requires { Into buffer.now n }
    ensures { Answered buffer.now n out.old out.new result }
{
    sheet(&buffer[..n], out)
}
