// Flat answers for those of the walk.
ghost use Rattle.std.specs.Prelude.{◌≡◌};
ghost use Rattle.walk.specs.Steps.{answer_of};
ghost use Rattle.structs.specs.Steps.{flat_of};

use crate::answer::{FlatAnswer, answered, event, printed};
use crate::element::flat_element;
use walk::answer::Answer;

// A step's answer, with the state that it carries.
pub fn flat_step(a: Answer) -> FlatAnswer
    ensures { result ≡ flat_of (answer_of a) }
{
    match a {
        Answer::Element(st, e) => answered(flat_element(e), st),
        Answer::Clear(st) => event(17, 0, 0, st),
        Answer::Print(st, p) => {
            let counts = p.counts;
            printed(p.count, counts, st)
        }
        Answer::End(st) => event(18, 0, 0, st),
        Answer::Refused(st, k, place) => event(255, k.number(), place, st),
    }
}
