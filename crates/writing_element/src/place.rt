// One element as its command, at a place of a lent buffer.
ghost use Rattle.std.specs.Prelude.{◌≡◌, ◌≤◌, length};
ghost use Rattle.writing_templates.specs.Fill.{fill};
ghost use Rattle.writing_element.specs.Plain.{plain_due};
ghost use Rattle.writing_element.specs.Place.{room_at, text_of, Puts};
ghost use Rattle.writing_templates.specs.Template.{template};
ghost use Rattle.writing_element.specs.Write.{which_at, flat_due};

use crate::write::{bytes_of, can_write, which_of};
use elements::refusal::LONGEST;
use structs::answer::Element;
use structs::element::struct_of;
use structs_read::element::{element_of, is_element};
use writing_limits::fine::holds;
use writing_templates::template::{command_len, put_command};

// n bytes are to be stored, and end within len from at on.
pub fn is_room(writing: bool, at: usize, n: usize, len: usize) -> bool
    ensures { result ≡ room_at writing at n len }
{
    writing & holds(len, at, n)
}

// How many bytes the command of a flat element has; it is stored where it is to be.
fn put_there(out: &mut [u8], at: usize, writing: bool, e: Element, t: &[u8]) -> usize
    requires { length t.now ≤ 16777216 }
    ensures { Puts out.new out.old writing at
        (fill e t.now (template (which_at e))) result }
{
    let w = which_of(e);
    let n = command_len(w, e, t.len());
    if is_room(writing, at, n, out.len()) {
        put_command(out, at, w, e, t);
    }
    n
}

// The same of any flat element: 0 where nothing yields it.
fn put_flat(input: &[u8], out: &mut [u8], at: usize, writing: bool, e: Element) -> usize
    ensures { Puts out.new out.old writing at (text_of (flat_due input.now e)) result }
{
    if LONGEST < input.len() {
        return 0;
    }
    let t = bytes_of(input, e);
    if can_write(input, e, t) {
        return put_there(out, at, writing, e, t);
    }
    0
}

// The same of a struct with any bytes in any field: 0 where no element has it, or nothing yields its element.
pub fn put_plain(input: &[u8], out: &mut [u8], at: usize, writing: bool, x: Element) -> usize
    ensures { Puts out.new out.old writing at (text_of (plain_due input.now x)) result }
{
    if is_element(x) {
        return put_flat(input, out, at, writing, struct_of(element_of(x)));
    }
    0
}
