// What is to be done for a label: its refusal, or its answer and the elements to be made.
ghost use Rattle.std.specs.Prelude.{◌≡◌, take};
ghost use Rattle.dots_label.specs.Conversion.{label_conversion, conversion_by};
ghost use Rattle.dots_label.specs.Walked.{drawn_from, first_drawn, entry_drawn, Finds, Plans, Refuses};

use crate::fault::first_fault;
use crate::fill::Cursor;
use crate::label::Label300;
use dots::element::nothing;
use elements::PrintCounts;
use elements::refusal::{LONGEST, Refusal};
use elements::walk_state::{WalkState, start};
use label_index::entry::LabelEntry;
use walk::answer::Answer;
use walk::step::step;

// The first label of a walk: the state that its elements begin at, and its sets and copies; or a refusal and its place.
#[derive(Clone, Copy)]
pub(crate) enum Found {
    Label(WalkState, PrintCounts),
    NoLabel(Refusal, usize),
}

// What the call answers, how many elements it makes, and where the walk that makes them starts.
#[derive(Clone, Copy)]
pub struct Plan {
    pub answer: Label300,
    pub todo: usize,
    pub start: Cursor,
}

// The first label from a state, nothing past its print being read; 21 where there is none, i being the entry's number.
fn find_label(input: &[u8], st: WalkState, i: usize) -> Found
    requires { st.pending ≡ 0 }
    ensures { Finds input.now st i result }
{
    let mut first = st;
    let mut here = st;
    loop {
        match step(input, here) {
            Answer::Element(next, _) => {
                here = next;
            }
            Answer::Clear(next) => {
                first = next;
                here = next;
            }
            Answer::Print(_, p) => {
                let counts = p.counts;
                return Found::Label(first, counts);
            }
            Answer::End(_) => {
                return Found::NoLabel(Refusal::NoSuchLabel, i);
            }
            Answer::Refused(_, k, p) => {
                return Found::NoLabel(k, p);
            }
        }
    }
}

// A cursor for nothing to be made.
fn idle() -> Cursor {
    let element = nothing();
    let state = start();
    Cursor {
        element,
        state,
        last: 0,
    }
}

// A refusal: nothing is made.
fn deny(number: u32, place: usize) -> Plan
    ensures { Refuses number place result }
{
    let start = idle();
    Plan {
        answer: Label300 {
            number,
            place,
            sets: 0,
            copies: 0,
        },
        todo: 0,
        start,
    }
}

// The label whose elements begin at `first`, for a list of so many elements.
fn plan_label(input: &[u8], first: WalkState, counts: PrintCounts, room: usize) -> Plan
    requires { first.pending ≡ 0 }
    ensures { Plans input.now room (label_conversion room counts (drawn_from input.now first)) result }
{
    let g = first_fault(input, first, true);
    if g.number != 0 {
        return deny(g.number, g.place);
    }
    let o = first_fault(input, first, false);
    let n = o.place;
    if o.number != 0 {
        return deny(o.number, n);
    }
    if room < n {
        return deny(15, n);
    }
    let element = nothing();
    Plan {
        answer: Label300 {
            number: 0,
            place: n,
            sets: counts.sets,
            copies: counts.copies,
        },
        todo: n,
        start: Cursor {
            element,
            state: first,
            last: input.len(),
        },
    }
}

// The first label of input from st, i being the entry's number.
fn plan_first(input: &[u8], st: WalkState, i: usize, room: usize) -> Plan
    requires { st.pending ≡ 0 }
    ensures { Plans input.now room (conversion_by room (first_drawn input.now st i)) result }
{
    match find_label(input, st, i) {
        Found::NoLabel(k, p) => deny(k.number() as u32, p),
        Found::Label(first, counts) => plan_label(input, first, counts, room),
    }
}

// The label of the entry e with the number i, out of n entries.
pub(crate) fn plan_entry(input: &[u8], n: usize, i: usize, e: LabelEntry, room: usize) -> Plan
    ensures { Plans (take e.last input.now) room (conversion_by room (entry_drawn input.now n i e)) result }
{
    if LONGEST < input.len() {
        return deny(14, 0);
    }
    if n <= i {
        return deny(21, i);
    }
    let last = e.last;
    if input.len() < last {
        return deny(16, last);
    }
    if last < e.first {
        return deny(16, last);
    }
    let reference = e.reference;
    let st = WalkState {
        reference,
        pending: 0,
        place: e.first,
    };
    plan_first(&input[..last], st, i, room)
}

pub(crate) fn to_fill(p: Plan) -> usize
    ensures { result ≡ p.todo }
{
    p.todo
}

pub(crate) fn starting(p: Plan) -> Cursor
    ensures { result ≡ p.start }
{
    p.start
}

pub(crate) fn answered(p: Plan) -> Label300
    ensures { result ≡ p.answer }
{
    p.answer
}
