// One element of a label.
ghost use Rattle.writing_label.specs.Tally.{TurnOf};

use crate::tally::{Tally, after};
use structs::answer::Element;
use writing_element::place::put_plain;

// It is measured, or written behind the one before.
pub(crate) fn turn(input: &[u8], out: &mut [u8], x: Element, c: Tally) -> Tally
    ensures { TurnOf input.now x (c, out.old) (result, out.new) }
{
    if c.refused {
        return c;
    }
    let n = put_plain(input, out, c.at, c.writing, x);
    after(c, n)
}
