// The elements that a rectangle finds: counted by a first walk, then their numbers written into a lent list by a
// second.
ghost use Rattle.std.specs.Prelude.{◌≡◌, ◌+◌, ◌<◌, ◌≤◌, length};
ghost use Rattle.elements.specs.Given.{Fills};
ghost use Rattle.text.specs.Wrote.{Put};
ghost use Rattle.where_element.specs.Found.{given_found};
ghost use Rattle.where_label.specs.Found.{inside_due, touching_due};
ghost use Rattle.where_label.specs.Find.{elements_from, is_found, found_of, count_if, one_if, first_due, started_due, inside_entry, touching_entry, Counts};

use elements::LabelElement;
use elements::refusal::{LONGEST, Refusal};
use elements::walk_state::WalkState;
use label_index::entry::{LabelEntry, entry_or, no_entry};
use label_opening::start::{Start, start_of};
use walk::answer::Answer;
use walk::step::step;
use where_element::element::{is_in, is_on};
use where_element::found::Found;
use where_element::place::{Rectangle, is_turned};

// What is asked: by their own rectangles, or by their positions.
#[derive(Clone, Copy)]
pub struct Look {
    pub rectangle: Rectangle,
    pub own: bool,
}

// The first label of a walk: the state that its elements begin at, and how many of them are found; or a refusal and its
// place.
#[derive(Clone, Copy)]
pub enum Counted {
    Label(WalkState, usize),
    NoLabel(Refusal, usize),
}

fn is_found(l: Look, e: LabelElement) -> bool
    ensures { result ≡ is_found l e }
{
    let r = l.rectangle;
    if l.own {
        return is_on(r, e);
    }
    is_in(r, e)
}

// One more where found.
fn count_if(found: bool, n: usize) -> usize
    requires { n < 18446744073709551615 }
    ensures { result ≡ n + count_if found }
{
    if found { n + 1 } else { n }
}

// How many are found in the first label from a state with nothing pending, nothing past its print being read; 21 where
// there is none, i being the entry's number.
fn count_first(input: &[u8], st: WalkState, i: usize, l: Look) -> Counted
    requires { st.pending ≡ 0 }
    ensures { Counts input.now l (first_due l input.now st i) result }
{
    let mut first = st;
    let mut here = st;
    let mut found: usize = 0;
    loop {
        match step(input, here) {
            Answer::Element(next, e) => {
                found = count_if(is_found(l, e), found);
                here = next;
            }
            Answer::Clear(next) => {
                found = 0;
                first = next;
                here = next;
            }
            Answer::Print(_, _) => {
                return Counted::Label(first, found);
            }
            Answer::End(_) => {
                return Counted::NoLabel(Refusal::NoSuchLabel, i);
            }
            Answer::Refused(_, k, p) => {
                return Counted::NoLabel(k, p);
            }
        }
    }
}

// A number where found.
fn put_if(found: bool, list: &mut [usize], at: usize, n: usize) -> usize
    requires { at + length (one_if found n) ≤ length list.old }
    ensures { Put list.new list.old at (one_if found n) result }
{
    if found {
        list[at] = n;
        return at + 1;
    }
    at
}

// The numbers of those found up to the first answer that is no element, from the start of the list. An element's number
// is how many are pending before it.
fn put_found(input: &[u8], list: &mut [usize], l: Look, st: WalkState) -> usize
    requires { (st.pending ≡ 0) × (length (found_of l (elements_from input.now st)) ≤ length list.old) }
    ensures { Put list.new list.old 0 (found_of l (elements_from input.now st)) result }
{
    let mut to: usize = 0;
    let mut here = st;
    loop {
        let Answer::Element(next, e) = step(input, here) else {
            return to;
        };
        to = put_if(is_found(l, e), list, to, here.pending);
        here = next;
    }
}

// The numbers of those found in the first label of input from st, from the start of the list; or a refusal.
fn find_first(input: &[u8], st: WalkState, i: usize, l: Look, list: &mut [usize]) -> Found
    requires { st.pending ≡ 0 }
    ensures { Fills list.new list.old (first_due l input.now st i) (given_found result) }
{
    match count_first(input, st, i, l) {
        Counted::NoLabel(k, p) => Found::Refused(k, p),
        Counted::Label(first, n) => {
            if list.len() < n {
                return Found::Refused(Refusal::OutputTooShort, n);
            }
            Found::Number(put_found(input, list, l, first))
        }
    }
}

// Of the label of the entry e with the number i, out of n entries; the rectangle is looked at before the entry.
fn find_entry(input: &[u8], list: &mut [usize], n: usize, i: usize, e: LabelEntry, l: Look) -> Found
    ensures { Fills list.new list.old (started_due input.now n i e l) (given_found result) }
{
    if LONGEST < input.len() {
        return Found::Refused(Refusal::InputTooLong, 0);
    }
    if is_turned(l.rectangle) {
        return Found::Refused(Refusal::RectangleTurned, 0);
    }
    match start_of(input.len(), n, i, e) {
        Start::Denied(k, p) => Found::Refused(k, p),
        Start::At(st, last) => find_first(&input[..last], st, i, l, list),
    }
}

pub(crate) fn inside_entry(
    input: &[u8],
    list: &mut [usize],
    n: usize,
    i: usize,
    e: LabelEntry,
    r: Rectangle,
) -> Found
    ensures { Fills list.new list.old (inside_entry input.now n i e r) (given_found result) }
{
    let l = Look {
        rectangle: r,
        own: false,
    };
    find_entry(input, list, n, i, e, l)
}

pub(crate) fn touching_entry(
    input: &[u8],
    list: &mut [usize],
    n: usize,
    i: usize,
    e: LabelEntry,
    r: Rectangle,
) -> Found
    ensures { Fills list.new list.old (touching_entry input.now n i e r) (given_found result) }
{
    let l = Look {
        rectangle: r,
        own: true,
    };
    find_entry(input, list, n, i, e, l)
}

// The numbers of the elements whose position lies in a rectangle, from the start of the list; or a refusal that leaves
// the list as it came.
pub fn inside(
    input: &[u8],
    entries: &[LabelEntry],
    number: usize,
    r: Rectangle,
    list: &mut [usize],
) -> Found
    ensures { Fills list.new list.old (inside_due input.now entries.now number r) (given_found result) }
{
    let e = entry_or(entries, number, no_entry());
    inside_entry(input, list, entries.len(), number, e, r)
}

// The numbers of the boxes and diagonals whose own rectangle shares a point with another, likewise.
pub fn touching(
    input: &[u8],
    entries: &[LabelEntry],
    number: usize,
    r: Rectangle,
    list: &mut [usize],
) -> Found
    ensures { Fills list.new list.old (touching_due input.now entries.now number r) (given_found result) }
{
    let e = entry_or(entries, number, no_entry());
    touching_entry(input, list, entries.len(), number, e, r)
}
