// The index of a file: its labels counted, then their entries made.
ghost use Rattle.std.specs.Prelude.{◌≡◌, length};
ghost use Rattle.label_index.specs.Entries.{begins};
ghost use Rattle.label_index.specs.Plan.{counted_of, answer_of, indexing_of, filling_of, Plans, Indexes};

use crate::entry::{Cursor, LabelEntry, fill, no_entry};
use elements::LabelPosition;
use elements::refusal::Refusal;
use elements::walk_state::start;
use walk::answer::Answer;
use walk::step::step;

// What a call that fills a list of entries answers: how many labels there are; or why the list is as it came, and the
// place.
#[derive(Clone, Copy)]
pub enum Indexed {
    Labels(usize),
    Refused(Refusal, usize),
}

// How many labels a file has, or the refusal of the walk: one walk over the whole input.
fn count_labels(input: &[u8]) -> Indexed
    ensures { counted_of result ≡ answer_of (indexing_of input.now) }
{
    let mut here = start();
    let mut n: usize = 0;
    loop {
        match step(input, here) {
            Answer::Element(next, _) => {
                here = next;
            }
            Answer::Clear(next) => {
                here = next;
            }
            Answer::Print(next, _) => {
                n += 1;
                here = next;
            }
            Answer::End(_) => {
                return Indexed::Labels(n);
            }
            Answer::Refused(_, k, p) => {
                return Indexed::Refused(k, p);
            }
        }
    }
}

// What is to be done for a list with room for so many entries: nothing where it is too short, or the file is refused.
#[derive(Clone, Copy)]
pub struct Todo {
    pub answer: Indexed,
    pub todo: usize,
}

fn plan(input: &[u8], room: usize) -> Todo
    ensures { Plans (filling_of input.now room) result }
{
    match count_labels(input) {
        Indexed::Refused(k, p) => Todo {
            answer: Indexed::Refused(k, p),
            todo: 0,
        },
        Indexed::Labels(n) => {
            if room < n {
                return Todo {
                    answer: Indexed::Refused(Refusal::TooManyLabels, n),
                    todo: 0,
                };
            }
            Todo {
                answer: Indexed::Labels(n),
                todo: n,
            }
        }
    }
}

// Before the first byte.
fn begin() -> Cursor
    ensures { result ≡ begins }
{
    Cursor {
        entry: no_entry(),
        reference: LabelPosition { x: 0, y: 0 },
    }
}

fn to_fill(p: Todo) -> usize
    ensures { result ≡ p.todo }
{
    p.todo
}

fn answered(p: Todo) -> Indexed
    ensures { result ≡ p.answer }
{
    p.answer
}

// An entry for each label of input, in print order, from the start of the list; or a refusal that leaves the list as it
// came: the file's, or 20 with the label count.
pub fn index(input: &[u8], entries: &mut [LabelEntry]) -> Indexed
    ensures { Indexes entries.new entries.old (filling_of input.now (length entries.old)) (counted_of result) }
{
    let p = plan(input, entries.len());
    fill(input, entries, begin(), to_fill(p));
    answered(p)
}
