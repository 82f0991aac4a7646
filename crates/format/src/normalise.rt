// 01's "format.rs": blocks are copied whole, lines lose the ASCII blanks at their ends, and each that is left has one
// LF behind it. Where the buffer may be too short the text is measured before anything is written.
ghost use Rattle.std.specs.Prelude.{◌≡◌, ◌+◌, ◌/◌, ◌<◌, ◌≤◌, length};
ghost use Rattle.text.specs.Wrote.{Put};
ghost use Rattle.elements.specs.Given.{Fills, given_of, longest};
ghost use Rattle.grammar.specs.Normal.{normalised};
ghost use Rattle.format.specs.Normalise.{due_of, Blocks};

use elements::filled::Filled;
use elements::refusal::{LONGEST, Refusal};
use graphics::gw_span::{Graphic, gw_span, opens_gw};
use normal_lines::line::{line_len, put_ended, put_line};
use numbers::blank::first;

// How many bytes the block has that stands first in rest, which goes to the end of input; 0 where a line is taken. A
// malformed `GW` line is a line.
fn block_len(rest: &[u8]) -> usize
    ensures { Blocks rest.now result }
{
    if !opens_gw(rest) {
        return 0;
    }
    match gw_span(rest) {
        Graphic::NoGraphic => 0,
        Graphic::Refused(n) => 0,
        Graphic::Span(g) => g.data_end,
    }
}

// The length of the normalised text: one pass, nothing written.
pub fn measure(input: &[u8]) -> usize
    requires { length input.now ≤ longest }
    ensures { result ≡ length (normalised input.now) }
{
    let mut at = 0;
    let mut total = 0;
    while at < input.len() {
        let rest = &input[at..];
        let n = block_len(rest);
        if 0 < n {
            total += n + 1;
            at += n;
        } else {
            let l = line_len(rest);
            if 0 < l.len {
                total += l.len + 1;
            }
            at += l.size;
        }
    }
    total
}

// The normalised text, from a place of out on.
pub fn put_chunks(input: &[u8], out: &mut [u8], from: usize) -> usize
    requires { from + length (normalised input.now) ≤ length out.old }
    ensures { Put out.new out.old from (normalised input.now) result }
{
    let mut at = 0;
    let mut to = from;
    while at < input.len() {
        let rest = &input[at..];
        let n = block_len(rest);
        if 0 < n {
            to = put_ended(first(rest, n), out, to);
            at += n;
        } else {
            let l = put_line(rest, out, to);
            to = l.to;
            at += l.size;
        }
    }
    to
}

// No text of n bytes normalises to more, so a buffer of that length needs no measuring.
fn room_for(n: usize) -> usize
    requires { n ≤ longest }
    ensures { result ≡ n + n / 6 + 1 }
{
    n + n / 6 + 1
}

// The normalised text from the start of out, or a refusal: 14, or 15 with the length needed.
pub fn normalise(input: &[u8], out: &mut [u8]) -> Filled
    ensures { Fills out.new out.old (due_of input.now) (given_of result) }
{
    if LONGEST < input.len() {
        return Filled::Refused(Refusal::InputTooLong, 0);
    }
    if out.len() < room_for(input.len()) {
        let n = measure(input);
        if out.len() < n {
            return Filled::Refused(Refusal::OutputTooShort, n);
        }
    }
    Filled::Bytes(put_chunks(input, out, 0))
}
