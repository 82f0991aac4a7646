// The normaliser as a program: standard input to standard output.
#![tactic(auto)]

ghost use Rattle.std.specs.Prelude.{length};
ghost use Rattle.text.specs.Wrote.{Put};
ghost use Rattle.format.specs.Normalise.{due_of};
ghost use Rattle.file_listing.specs.Printing.{Shows};
ghost use Rattle.normalise.specs.Printed.{printed_of};

use elements::DataSpan;
use elements::refusal::Refusal;
use file_listing::printing::{PROGRAM_MAX, put_answer};
use frame_bytes::data::part;
use laddertick::{Filled, normalise};
use numbers::blank::first;

// One byte more than an input may have, to tell one that is too long.
const READ: usize = PROGRAM_MAX + 1;
// The normalised text of n bytes has at most n + n/6 + 1, so 15 is never printed.
const ROOM: usize = PROGRAM_MAX + PROGRAM_MAX / 6 + 1;

fn main() {
    let mut input = [0u8; READ];
    let mut out = [0u8; ROOM];
    run(&mut input, &mut out);
}

fn run(input: &mut [u8; READ], out: &mut [u8; ROOM]) {
    let n = io::read_full(0, input);
    let k = show(input, n, out);
    io::write_all(1, part(out, DataSpan { start: 0, len: k }));
}

// The bytes to print, from the start of out, where n bytes of standard input were read. Gives their number.
fn show(input: &[u8; READ], n: usize, out: &mut [u8; ROOM]) -> usize
    ensures { Shows due_of input.now n out.new result }
{
    print_normalised(first(input, n), out)
}

// The normalised text of input, or the one frame ff of a refusal, from the start of out; nothing where out cannot hold
// the refusal. Gives its length.
fn print_normalised(input: &[u8], out: &mut [u8]) -> usize
    ensures { Put out.new out.old 0 (printed_of input.now (length out.old)) result }
{
    if PROGRAM_MAX < input.len() {
        return put_answer(out, Filled::Refused(Refusal::InputTooLong, 0));
    }
    let a = normalise(input, out);
    put_answer(out, a)
}
