// Two files into a buffer that the host lends. Both are walked whole and the text is measured before anything is
// written. The line `N` between them drops what is pending in the first, and sets the reference to 0,0.
ghost use Rattle.std.specs.Prelude.{◌≡◌, ◌≤◌, length};
ghost use Rattle.text.specs.Wrote.{Put};
ghost use Rattle.elements.specs.Given.{longest};
ghost use Rattle.joining.specs.Join.{joined_text, Joins};

use crate::answer::{Joined, neither};
use elements::refusal::{LONGEST, Refusal};
use format::normalise::{measure, put_chunks};
use normal_lines::line::put_ended;
use strict::check::plain;

// The length of the joined text.
fn joined_len(first: &[u8], second: &[u8]) -> usize
    requires { (length first.now ≤ longest) × (length second.now ≤ longest) }
    ensures { result ≡ length (joined_text first.now second.now) }
{
    measure(first) + 2 + measure(second)
}

// The joined text, from the start of out.
fn put_joined(first: &[u8], second: &[u8], out: &mut [u8]) -> usize
    requires { length (joined_text first.now second.now) ≤ length out.old }
    ensures { Put out.new out.old 0 (joined_text first.now second.now) result }
{
    let end = put_chunks(first, out, 0);
    let next = put_ended(b"N", out, end);
    put_chunks(second, out, next)
}

// The joined text from the start of out, or a refusal that leaves out as it came: the first file's, the second's, 25 or
// 15, both with the joined length.
pub fn join(first: &[u8], second: &[u8], out: &mut [u8]) -> Joined
    ensures { Joins out.new out.old first.now second.now result }
{
    let a = plain(first);
    if a.number != 0 {
        return Joined {
            number: a.number,
            file: 1,
            place: a.place,
        };
    }
    let b = plain(second);
    if b.number != 0 {
        return Joined {
            number: b.number,
            file: 2,
            place: b.place,
        };
    }
    let n = joined_len(first, second);
    if LONGEST < n {
        return neither(Refusal::JoinedTooLong, n);
    }
    if out.len() < n {
        return neither(Refusal::OutputTooShort, n);
    }
    Joined {
        number: 0,
        file: 0,
        place: put_joined(first, second, out),
    }
}
