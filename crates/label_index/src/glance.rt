// Lines told by their first bytes. In a file that is not refused these say whether a line draws an element. A file is
// walked whole before its entries are made, and this is the fast way over its lines the second time.
ghost use Rattle.std.specs.Prelude.{◌≡◌, ◌+◌, ◌<◌, ◌≤◌, get_or};
ghost use Rattle.text.specs.Blank.{trim_end};
ghost use Rattle.grammar.specs.WellFormed.{is_read};
ghost use Rattle.label_index.specs.Entries.{Within};
ghost use Rattle.label_index.specs.Glance.{has_quotes, is_line_letter, tells, draws, glance_of, Past};

use byte_slices::fields::before_last;
use byte_slices::scan::{find, line_size};
use elements::walk_state::WalkState;
use numbers::blank::trim_end;

// How long a line is, with its LF, and how many elements it draws. Size 0: it is not told.
#[derive(Clone, Copy)]
pub(crate) struct Seen {
    pub size: usize,
    pub drawn: usize,
}

// `A`, `B`, `b`.
fn has_quotes(b: u8) -> bool
    ensures { result ≡ has_quotes b }
{
    (b == b'A') | (b == b'B') | (b == b'b')
}

// The second letter of `LO`, `LW`, `LE`, `LS`.
fn is_line_letter(c: u8) -> bool
    ensures { result ≡ is_line_letter c }
{
    (c == b'O') | (c == b'W') | (c == b'E') | (c == b'S')
}

// The second byte of t, or 0.
fn second(t: &[u8]) -> u8
    ensures { result ≡ get_or t.now 1 0 }
{
    if 1 < t.len() { t[1] } else { 0 }
}

// Two quotes, and something between the first and the last.
fn has_data(t: &[u8]) -> bool
    ensures { result ≡ is_read t.now }
{
    let q = find(t, b'"');
    if t.len() - q < 2 {
        return false;
    }
    let m = q + 1;
    let data = before_last(&t[m..], b'"');
    data.len() != 0
}

// No blank; no graphic block; none of `N`, `R`, `P`, which are left to the reader of a line.
fn tells(b: u8) -> bool
    ensures { result ≡ tells b }
{
    (0x21 <= b) & (b <= 0x7f) & (b != b'G') & (b != b'N') & (b != b'R') & (b != b'P')
}

// A line draws an element, b being its first byte. Blanks at its end are taken off only where they matter.
fn draws(b: u8, line: &[u8]) -> bool
    ensures { result ≡ draws b (trim_end line.now) }
{
    if has_quotes(b) {
        return has_data(trim_end(line));
    }
    if b == b'L' {
        return is_line_letter(second(trim_end(line)));
    }
    b == b'X'
}

// What stands first in rest: a line that its first bytes tell, or size 0.
fn glance(rest: &[u8]) -> Seen
    ensures { result ≡ glance_of rest.now }
{
    if rest.len() == 0 {
        return Seen { size: 0, drawn: 0 };
    }
    let b = rest[0];
    if tells(b) {
        let n = find(rest, 10);
        let size = line_size(n, rest.len());
        if draws(b, &rest[..n]) {
            return Seen { size, drawn: 1 };
        }
        return Seen { size, drawn: 0 };
    }
    Seen { size: 0, drawn: 0 }
}

// The state behind the lines from st on that are told so.
pub(crate) fn pass_told(input: &[u8], st: WalkState) -> WalkState
    requires { Within input.now st.place st.reference × (0 < st.pending) × (st.pending ≤ st.place + 1) }
    ensures { Past input.now st result }
{
    let reference = st.reference;
    let mut at = st.place;
    let mut n = st.pending;
    loop {
        let g = glance(&input[at..]);
        if g.size == 0 {
            return WalkState {
                reference,
                pending: n,
                place: at,
            };
        }
        at += g.size;
        n += g.drawn;
    }
}
