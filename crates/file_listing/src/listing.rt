// 01's listing: a label is its frame 00, then the frames of its elements; behind the labels, frame fe with the count of
// what is pending at the end, if there is any; one line a frame, in hexadecimal. The whole file is walked before
// anything is written.
ghost use Rattle.std.specs.Prelude.{◌≡◌, ◌+◌, ◌≤◌, length};
ghost use Rattle.text.specs.Wrote.{Put};
ghost use Rattle.elements.specs.Given.{needed, Fills, given_of};
ghost use Rattle.file_listing.specs.Listing.{lines_of, front_frames, label_text, pending_line, all_text, due_of};

use elements::filled::Filled;
use elements::refusal::Refusal;
use elements::walk_state::{WalkState, start};
use frame_digits::frame::{frame_len, put_frame, put_label_frame, put_pending};
use walk::answer::{Answer, Printed};
use walk::step::step;

// The lines of the elements from st up to the first answer that is none.
fn put_elements(input: &[u8], out: &mut [u8], at: usize, st: WalkState) -> usize
    requires { at + length (lines_of (front_frames input.now st)) ≤ length out.old }
    ensures { Put out.new out.old at (lines_of (front_frames input.now st)) result }
{
    let mut to = at;
    let mut here = st;
    loop {
        let Answer::Element(next, e) = step(input, here) else {
            return to;
        };
        to = put_frame(input, out, to, e);
        here = next;
    }
}

// A label of what a print carries, whose elements begin at first.
pub fn put_label(input: &[u8], out: &mut [u8], at: usize, p: Printed, first: WalkState) -> usize
    requires { at + length (label_text input.now p first) ≤ length out.old }
    ensures { Put out.new out.old at (label_text input.now p first) result }
{
    let counts = p.counts;
    let to = put_label_frame(out, at, p.count, counts);
    put_elements(input, out, to, first)
}

// What is pending at the end: n elements, or nothing.
fn put_end(out: &mut [u8], at: usize, n: usize) -> usize
    requires { at + length (pending_line n) ≤ length out.old }
    ensures { Put out.new out.old at (pending_line n) result }
{
    if 0 < n {
        return put_pending(out, at, n);
    }
    at
}

// How long that is.
fn end_len(n: usize) -> usize
    ensures { result ≡ length (pending_line n) }
{
    if n == 0 { 0 } else { 11 }
}

// The labels that the walk answers before its end or refusal, and what is pending at the end. Each label is walked
// twice: to its print for the count, then for its frames.
fn put_labels(input: &[u8], out: &mut [u8]) -> usize
    requires { length (all_text input.now) ≤ length out.old }
    ensures { Put out.new out.old 0 (all_text input.now) result }
{
    let mut first = start();
    let mut here = start();
    let mut at = 0;
    loop {
        match step(input, here) {
            Answer::Element(next, _) => {
                here = next;
            }
            Answer::Clear(next) => {
                first = next;
                here = next;
            }
            Answer::Print(next, p) => {
                at = put_label(input, out, at, p, first);
                first = next;
                here = next;
            }
            Answer::End(next) => {
                return put_end(out, at, next.pending);
            }
            Answer::Refused(next, k, p) => {
                return at;
            }
        }
    }
}

// The length of the listing, or the refusal of the walk: one walk over the whole input, nothing written.
pub(crate) fn measure(input: &[u8]) -> Filled
    ensures { given_of result ≡ needed (due_of input.now) }
{
    let mut here = start();
    let mut total = 0;
    let mut pend = 0;
    loop {
        match step(input, here) {
            Answer::Element(next, e) => {
                let n = frame_len(input, e);
                pend += 2 * n + 1;
                here = next;
            }
            Answer::Clear(next) => {
                pend = 0;
                here = next;
            }
            Answer::Print(next, p) => {
                total += 27 + pend;
                pend = 0;
                here = next;
            }
            Answer::End(next) => {
                total += end_len(next.pending);
                return Filled::Bytes(total);
            }
            Answer::Refused(next, k, p) => {
                return Filled::Refused(k, p);
            }
        }
    }
}

// The whole listing from the start of out, or a refusal: the walk's, or 15 with the length needed.
pub fn list(input: &[u8], out: &mut [u8]) -> Filled
    ensures { Fills out.new out.old (due_of input.now) (given_of result) }
{
    match measure(input) {
        Filled::Refused(k, p) => Filled::Refused(k, p),
        Filled::Bytes(n) => {
            if out.len() < n {
                return Filled::Refused(Refusal::OutputTooShort, n);
            }
            Filled::Bytes(put_labels(input, out))
        }
    }
}
