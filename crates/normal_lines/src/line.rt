// A line into a lent buffer, without the ASCII blanks at its ends and with one LF behind it. A long one is written
// piece by piece as it is looked through, so that it comes from memory once.
ghost use Rattle.std.specs.Prelude.{◌≡◌, ◌+◌, ◌≤◌, length, take};
ghost use Rattle.text.specs.Blank.{front, drop_end, is_ascii_blank, trim_ascii};
ghost use Rattle.text.specs.Wrote.{Put};
ghost use Rattle.grammar.specs.Units.{not_lf};
ghost use Rattle.normal_lines.specs.Lines.{ended, Keeps, PutsLine, PutsPieces};

use byte_slices::put::put_bytes;
use byte_slices::scan::{NEAR, find, line_size, near};
use graphics::gw_span::trim_line_start;
use numbers::blank::{first, trim_ascii_end, trim_ascii_start};

// So many bytes are looked through before they are written.
const PIECE: usize = 4096;

// A line that was written: its bytes, its LF among them, and the place behind what was written.
#[derive(Clone, Copy)]
pub struct Line {
    pub size: usize,
    pub to: usize,
}

// A line that was looked through: its bytes, its LF among them, and how many are left without it and the blanks at the
// ends.
#[derive(Clone, Copy)]
pub struct Kept {
    pub size: usize,
    pub len: usize,
}

// The line that stands first in rest.
pub fn line_len(rest: &[u8]) -> Kept
    ensures { Keeps rest.now result }
{
    let n = find(rest, 10);
    let kept = trim_ascii_end(trim_ascii_start(first(rest, n)));
    Kept {
        size: line_size(n, rest.len()),
        len: kept.len(),
    }
}

// A part and the LF behind it; nothing for a part of no bytes.
pub fn put_ended(part: &[u8], out: &mut [u8], at: usize) -> usize
    requires { at + length (ended part.now) ≤ length out.old }
    ensures { Put out.new out.old at (ended part.now) result }
{
    if part.len() == 0 {
        return at;
    }
    put_bytes(part, out, at);
    let end = at + part.len();
    out[end] = 10;
    end + 1
}

// What stands first up to an LF, the end or a piece's length.
fn piece(s: &[u8]) -> &[u8]
    ensures { result.now ≡ front not_lf (take 4096 s.now) }
{
    let near = first(s, PIECE);
    first(near, find(near, 10))
}

// The line that t begins with, without the blanks that it ends with, and no LF. It is written up to `done`; blanks go
// on from there to `seen`.
fn put_pieces(t: &[u8], out: &mut [u8], at: usize) -> Line
    requires { at + length (drop_end is_ascii_blank (front not_lf t.now)) ≤ length out.old }
    ensures { PutsPieces out.new out.old t.now at result }
{
    let mut done = 0;
    let mut seen = 0;
    let mut to = at;
    loop {
        let p = piece(&t[seen..]);
        let n = p.len();
        let end = seen + trim_ascii_end(p).len();
        let upto = if seen < end { end } else { done };
        put_bytes(&t[done..upto], out, to);
        to += upto - done;
        done = upto;
        seen += n;
        if n < PIECE {
            return Line { size: seen, to };
        }
    }
}

// A line of any length.
fn put_long(rest: &[u8], out: &mut [u8], at: usize) -> Line
    requires { at + length (ended (trim_ascii (front not_lf rest.now))) ≤ length out.old }
    ensures { PutsLine out.new out.old rest.now at result }
{
    let started = trim_line_start(rest);
    let from = rest.len() - started.len();
    let l = put_pieces(started, out, at);
    let size = line_size(from + l.size, rest.len());
    let end = l.to;
    if end <= at {
        return Line { size, to: at };
    }
    out[end] = 10;
    Line { size, to: end + 1 }
}

// The line that stands first in rest. Most end near.
pub fn put_line(rest: &[u8], out: &mut [u8], at: usize) -> Line
    requires { at + length (ended (trim_ascii (front not_lf rest.now))) ≤ length out.old }
    ensures { PutsLine out.new out.old rest.now at result }
{
    let n = near(rest, 10);
    if NEAR <= n {
        return put_long(rest, out, at);
    }
    let to = put_ended(trim_ascii_end(trim_ascii_start(first(rest, n))), out, at);
    Line { size: n + 1, to }
}
