// The listing under the strict reading.
ghost use Rattle.elements.specs.Given.{Fills, given_of};
ghost use Rattle.strict.specs.Listing.{strict_due_of};

use crate::check::check;
use elements::filled::Filled;
use elements::refusal::Refusal;
use file_listing::listing::list;

// The labels' frames from the start of out, or a refusal. Where the profile has no objection the plain listing is due,
// or the plain refusal.
pub fn strict_list(input: &[u8], out: &mut [u8]) -> Filled
    ensures { Fills out.new out.old (strict_due_of input.now) (given_of result) }
{
    let c = check(input);
    let n = c.number;
    if n == 17 {
        return Filled::Refused(Refusal::NoValue, c.place);
    }
    if n == 18 {
        return Filled::Refused(Refusal::OutsideProfile, c.place);
    }
    list(input, out)
}
