// What the programs print for an input.
ghost use Rattle.std.specs.Prelude.{length};
ghost use Rattle.text.specs.Wrote.{Put};
ghost use Rattle.elements.specs.Given.{given_of};
ghost use Rattle.file_listing.specs.Printing.{Prints, printed_of};

use crate::listing::list;
use elements::filled::Filled;
use elements::refusal::Refusal;
use frame_digits::frame::put_refusal;

// The longest input of a program.
pub const PROGRAM_MAX: usize = 65536;

// How many bytes of out there are to print when a call has filled it and answered a; a refusal is written as its one
// frame ff, from the start, where out can hold it.
pub fn put_answer(out: &mut [u8], a: Filled) -> usize
    ensures { Prints out.new out.old (given_of a) result }
{
    match a {
        Filled::Bytes(n) => n,
        Filled::Refused(k, p) => {
            if out.len() < 13 {
                return 0;
            }
            put_refusal(out, 0, k.number(), p)
        }
    }
}

// The listing of input, or the one frame ff of a refusal, from the start of out; nothing where out cannot hold the
// refusal. Gives its length.
pub fn print_listing(input: &[u8], out: &mut [u8]) -> usize
    ensures { Put out.new out.old 0 (printed_of input.now (length out.old)) result }
{
    if PROGRAM_MAX < input.len() {
        return put_answer(out, Filled::Refused(Refusal::InputTooLong, 0));
    }
    let a = list(input, out);
    put_answer(out, a)
}
