// One element as its command, from a struct with any bytes in any field.
ghost use Rattle.elements.specs.Given.{Fills, given_of};
ghost use Rattle.writing_element.specs.Plain.{plain_due};

use crate::write::write;
use elements::filled::Filled;
use elements::refusal::{LONGEST, Refusal};
use structs::answer::Element;
use structs_read::element::{element_of, is_element};

// One command and its LF, from the start of out. A struct that no element has is 23, as is an element that no line
// yields.
pub fn write_plain(input: &[u8], x: Element, out: &mut [u8]) -> Filled
    ensures { Fills out.new out.old (plain_due input.now x) (given_of result) }
{
    if LONGEST < input.len() {
        return Filled::Refused(Refusal::InputTooLong, 0);
    }
    if is_element(x) {
        return write(input, element_of(x), out);
    }
    Filled::Refused(Refusal::NotReadable, 0)
}
