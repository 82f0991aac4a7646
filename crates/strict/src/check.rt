// The strict reading in two passes: the plain walk to its end, then the profile's look at the units that it has read.
ghost use Rattle.std.specs.Prelude.{◌≡◌, suc, ◌≤◌, length};
ghost use Rattle.elements.specs.Walk.{fresh};
ghost use Rattle.strict.specs.Verdict.{checked_of};
ghost use Rattle.strict.specs.Look.{end_of, plainly, looked_by};

use crate::verdict::{Checked, bare, told};
use elements::refusal::LONGEST;
use elements::walk_state::start;
use profile::unit::{Looked, look};
use walk::answer::Answer;
use walk::step::step;

// How the plain walk ends.
pub fn plain(input: &[u8]) -> Checked
    ensures { result ≡ plainly (end_of input.now fresh) }
{
    let mut here = start();
    loop {
        match step(input, here) {
            Answer::Element(next, _) => {
                here = next;
            }
            Answer::Clear(next) => {
                here = next;
            }
            Answer::Print(next, _) => {
                here = next;
            }
            Answer::End(_) => {
                return bare(0, 0);
            }
            Answer::Refused(_, k, p) => {
                return bare(k.number() as u32, p);
            }
        }
    }
}

// The first objection to a unit that begins before end, or what is handed in.
fn objected(input: &[u8], end: usize, otherwise: Checked) -> Checked
    requires { end ≤ length input.now }
    ensures { result ≡ looked_by (suc (length input.now)) input.now 0 end otherwise }
{
    let mut at = 0;
    while at < end {
        match look(&input[at..]) {
            Looked::Passed(size) => {
                at += size;
            }
            Looked::Objected(k, h) => {
                return told(k, h, at);
            }
        }
    }
    otherwise
}

// The profile's verdict on a whole file: the first objection to a unit that the plain walk has read, a refused one
// included; or how the plain walk ends.
pub fn check(input: &[u8]) -> Checked
    ensures { result ≡ checked_of input.now }
{
    let p = plain(input);
    if LONGEST < input.len() {
        return p;
    }
    if p.number == 0 {
        return objected(input, input.len(), p);
    }
    objected(input, p.place + 1, p)
}
