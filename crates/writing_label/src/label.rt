// A label as EPL: `N`, its elements, its print line. Its elements are measured first, so that a refused call stores
// nothing. What a loop that passes a list has to know of lists is in the crate `lent_lists`.
ghost use Rattle.std.specs.Prelude.{◌≡◌, ◌+◌, ◌≤◌, length};
ghost use Rattle.elements.specs.Given.{Fills, given_of};
ghost use Rattle.lent_lists.specs.Passed.{Passes};
ghost use Rattle.spellings.specs.Due.{no_label};
ghost use Rattle.text.specs.Wrote.{Put};
ghost use Rattle.writing_label.specs.Label.{plain_label_due};
ghost use Rattle.writing_label.specs.Tally.{TurnOf};
ghost use Rattle.writing_label.specs.Plan.{measured, print_text, PrintLen, plan_of, begin_of, finish_of};

use crate::tally::{Tally, onto};
use crate::turn::turn;
use decimals::decimal::{decimal_len, put_decimal};
use elements::filled::Filled;
use elements::refusal::{LONGEST, Refusal};
use structs::answer::Element;
use writing_element::place::is_room;

// Before the first element, which stands behind `N` and its LF.
pub(crate) fn measuring() -> Tally
    ensures { result ≡ measured }
{
    Tally {
        number: 0,
        at: 2,
        refused: false,
        writing: false,
    }
}

// How many bytes the print line has, with its LF.
fn print_len(sets: i32, copies: i32) -> usize
    ensures { PrintLen sets copies result }
{
    decimal_len(sets) + decimal_len(copies) + 3
}

// `P`, sets, copies, and an LF.
fn put_print(out: &mut [u8], at: usize, sets: i32, copies: i32) -> usize
    requires { at + length (print_text sets copies) ≤ length out.old }
    ensures { Put out.new out.old at (print_text sets copies) result }
{
    out[at] = b'P';
    let a = put_decimal(out, at + 1, sets);
    out[a] = b',';
    let b = put_decimal(out, a + 1, copies);
    out[b] = 10;
    b + 1
}

// n elements and these counts are no label's.
fn is_none(n: usize, sets: i32, copies: i32) -> bool
    ensures { result ≡ no_label n (record { sets = sets; copies = copies }) }
{
    (n == 0) | (LONGEST < n) | (sets < 0) | (copies < 0)
}

// What is answered, from the lengths of the input, of the list and of the buffer, and the elements as they were
// measured.
pub(crate) fn plan(long: usize, n: usize, room: usize, m: Tally, sets: i32, copies: i32) -> Filled
    ensures { result ≡ plan_of long n room m sets copies }
{
    if LONGEST < long {
        return Filled::Refused(Refusal::InputTooLong, 0);
    }
    if m.refused {
        return Filled::Refused(Refusal::NotReadable, m.number);
    }
    if is_none(n, sets, copies) {
        return Filled::Refused(Refusal::NotReadable, n);
    }
    let total = onto(m.at, print_len(sets, copies));
    if room < total {
        return Filled::Refused(Refusal::OutputTooShort, total);
    }
    Filled::Bytes(total)
}

// `N` and its LF, where the label is to be written.
pub(crate) fn begin(out: &mut [u8], p: Filled) -> Tally
    ensures { (result, out.new) ≡ begin_of p out.old }
{
    match p {
        Filled::Bytes(_) => {
            if 2 <= out.len() {
                out[0] = b'N';
                out[1] = 10;
            }
            Tally {
                number: 0,
                at: 2,
                refused: false,
                writing: true,
            }
        }
        Filled::Refused(_, _) => Tally {
            number: 0,
            at: 0,
            refused: true,
            writing: false,
        },
    }
}

// The print line, where the label is to be written.
pub(crate) fn finish(out: &mut [u8], p: Filled, e: Tally, sets: i32, copies: i32) -> Filled
    ensures { (result, out.new) ≡ finish_of p e sets copies out.old }
{
    match p {
        Filled::Bytes(n) => {
            if is_room(true, e.at, print_len(sets, copies), out.len()) {
                put_print(out, e.at, sets, copies);
            }
            Filled::Bytes(n)
        }
        Filled::Refused(k, place) => Filled::Refused(k, place),
    }
}

// Each element in turn.
fn pass(input: &[u8], xs: &[Element], out: &mut [u8], start: Tally) -> Tally
    ensures { Passes (TurnOf input.now) xs.now (start, out.old) (result, out.new) }
{
    let mut c = start;
    let mut i: usize = 0;
    while i < xs.len() {
        c = turn(input, out, xs[i], c);
        i = i + 1;
    }
    c
}

// `N`, the elements and the print line, from the start of out; or a refusal that leaves out as it came.
pub fn write_label(
    input: &[u8],
    elements: &[Element],
    sets: i32,
    copies: i32,
    out: &mut [u8],
) -> Filled
    ensures { Fills out.new out.old (plain_label_due input.now elements.now (record { sets = sets; copies = copies })) (given_of result) }
{
    let m = pass(input, elements, out, measuring());
    let p = plan(input.len(), elements.len(), out.len(), m, sets, copies);
    let c = begin(out, p);
    let e = pass(input, elements, out, c);
    finish(out, p, e, sets, copies)
}
