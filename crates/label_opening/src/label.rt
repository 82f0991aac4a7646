// One label's lines of the listing. Only its own bytes of the file are walked.
ghost use Rattle.elements.specs.Given.{Fills, given_of};
ghost use Rattle.label_opening.specs.Opened.{due_of, first_due, entry_due, Finds};

use crate::start::{Start, start_of};
use elements::filled::Filled;
use elements::refusal::Refusal;
use elements::walk_state::WalkState;
use file_listing::listing::put_label;
use frame_digits::frame::frame_len;
use label_index::entry::{LabelEntry, entry_or, no_entry};
use walk::answer::{Answer, Printed};
use walk::step::step;

// The first label of a walk: the state that its elements begin at, what its print carries, and how many bytes its lines
// have; or a refusal and its place.
#[derive(Clone, Copy)]
pub enum Found {
    Label(WalkState, Printed, usize),
    NoLabel(Refusal, usize),
}

// The first label from a state, nothing past its print being read; 21 where there is none, i being the entry's number.
fn measure_first(input: &[u8], st: WalkState, i: usize) -> Found
    ensures { Finds input.now (first_due input.now st i) result }
{
    let mut first = st;
    let mut here = st;
    let mut pend: usize = 0;
    loop {
        match step(input, here) {
            Answer::Element(next, e) => {
                let n = frame_len(input, e);
                pend += 2 * n + 1;
                here = next;
            }
            Answer::Clear(next) => {
                pend = 0;
                first = next;
                here = next;
            }
            Answer::Print(_, p) => {
                return Found::Label(first, p, 27 + pend);
            }
            Answer::End(_) => {
                return Found::NoLabel(Refusal::NoSuchLabel, i);
            }
            Answer::Refused(_, k, p) => {
                return Found::NoLabel(k, p);
            }
        }
    }
}

// The first label of input from st, from the start of out; or a refusal.
fn open_first(input: &[u8], st: WalkState, i: usize, out: &mut [u8]) -> Filled
    ensures { Fills out.new out.old (first_due input.now st i) (given_of result) }
{
    match measure_first(input, st, i) {
        Found::NoLabel(k, p) => Filled::Refused(k, p),
        Found::Label(first, p, n) => {
            if out.len() < n {
                return Filled::Refused(Refusal::OutputTooShort, n);
            }
            Filled::Bytes(put_label(input, out, 0, p, first))
        }
    }
}

// The label of the entry e with the number i, out of n entries.
pub(crate) fn open_entry(input: &[u8], out: &mut [u8], n: usize, i: usize, e: LabelEntry) -> Filled
    ensures { Fills out.new out.old (entry_due input.now n i e) (given_of result) }
{
    match start_of(input.len(), n, i, e) {
        Start::Denied(k, p) => Filled::Refused(k, p),
        Start::At(st, last) => open_first(&input[..last], st, i, out),
    }
}

// The lines of the listing for the label with this number, from the start of out; or a refusal that leaves out as it
// came. Only the entry with this number is looked at, and of input only what stands from its first to its last place.
pub fn open_label(input: &[u8], entries: &[LabelEntry], number: usize, out: &mut [u8]) -> Filled
    ensures { Fills out.new out.old (due_of input.now entries.now number) (given_of result) }
{
    let e = entry_or(entries, number, no_entry());
    open_entry(input, out, entries.len(), number, e)
}
