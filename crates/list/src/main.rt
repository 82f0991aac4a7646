// The listing program: standard input to frames, one a line.
#![tactic(auto)]

ghost use Rattle.file_listing.specs.Listing.{due_of};
ghost use Rattle.file_listing.specs.Printing.{Shows};

use elements::DataSpan;
use file_listing::printing::{PROGRAM_MAX, print_listing};
use frame_bytes::data::part;
use numbers::blank::first;

// One byte more than an input may have, to tell one that is too long.
const READ: usize = PROGRAM_MAX + 1;
// A listing has at most 16 bytes for each byte of its input, so 15 is never printed.
const ROOM: usize = 16 * PROGRAM_MAX;

fn main() {
    let mut input = [0u8; READ];
    let mut out = [0u8; ROOM];
    run(&mut input, &mut out);
}

fn run(input: &mut [u8; READ], out: &mut [u8; ROOM]) {
    let n = io::read_full(0, input);
    let k = show(input, n, out);
    io::write_all(1, part(out, DataSpan { start: 0, len: k }));
}

// The bytes to print, from the start of out, where n bytes of standard input were read. Gives their number.
fn show(input: &[u8; READ], n: usize, out: &mut [u8; ROOM]) -> usize
    ensures { Shows due_of input.now n out.new result }
{
    print_listing(first(input, n), out)
}
