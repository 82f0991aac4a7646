// Replays the inputs of `stdin` and prints the listing of each, then a line with a full stop; `stdout` has the oracle's
// answers (tools/oracle/cases).
// Each case is its length, 4 bytes with the most significant first, and its bytes.
#![tactic(auto)]

ghost use Rattle.std.specs.Prelude.{◌≡◌, ◌<◌, length};

use elements::DataSpan;
use file_listing::printing::print_listing;
use frame_bytes::data::part;

fn main() {
    let mut cases = [0u8; 524288];
    let mut out = [0u8; 1048576];
    run(&mut cases, &mut out);
}

fn run(cases: &mut [u8; 524288], out: &mut [u8; 1048576]) {
    all(cases, out);
}

fn all(cases: &mut [u8], out: &mut [u8]) {
    let n = io::read_full(0, cases);
    replay(&cases[..n], out);
}

// Stops where fewer bytes are left than a case says.
fn replay(cases: &[u8], out: &mut [u8]) {
    let mut at: usize = 0;
    while at < cases.len() && 4 <= cases.len() - at {
        let n = length_at(&cases[at..]);
        let from = at + 4;
        if cases.len() - from < n {
            return;
        }
        let end = from + n;
        one(&cases[from..end], out);
        at = end;
    }
}

// The number in the first 4 bytes, 0 where there are fewer.
fn length_at(s: &[u8]) -> usize {
    if s.len() < 4 {
        return 0;
    }
    wide(s[0]) * 16777216 + wide(s[1]) * 65536 + wide(s[2]) * 256 + wide(s[3])
}

fn wide(b: u8) -> usize
    ensures { result < 256 }
{
    b as usize
}

fn one(input: &[u8], out: &mut [u8])
    ensures { length out.new ≡ length out.old }
{
    let k = print_listing(input, out);
    io::write_all(1, part(out, DataSpan { start: 0, len: k }));
    io::write_all(1, b".\n");
}
