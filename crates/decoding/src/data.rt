// The bytes of decoded data, into a buffer that the host lends. They are measured before anything is written.
ghost use Rattle.elements.specs.Given.{Fills, given_of};
ghost use Rattle.decoding.specs.Decoding.{due_of};

use byte_slices::utf8::{decoded_len, write_decoded};
use elements::DataSpan;
use elements::filled::Filled;
use elements::refusal::{LONGEST, Refusal};
use frame_bytes::data::part;

// No byte is decoded to more than three.
pub const DECODED_MAX: usize = 50331648;

// What the bytes at d are decoded to, as far as the input goes, from the start of out; or a refusal: 14, or 15 with the
// length needed.
pub fn decode(input: &[u8], d: DataSpan, out: &mut [u8]) -> Filled
    ensures { Fills out.new out.old (due_of input.now d) (given_of result) }
{
    if LONGEST < input.len() {
        return Filled::Refused(Refusal::InputTooLong, 0);
    }
    let p = part(input, d);
    let n = decoded_len(p, DECODED_MAX);
    if out.len() < n {
        return Filled::Refused(Refusal::OutputTooShort, n);
    }
    write_decoded(p, out, 0);
    Filled::Bytes(n)
}
