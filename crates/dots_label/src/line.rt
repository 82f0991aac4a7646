// Where a line begins. It is looked for only where a refusal names it.
ghost use Rattle.std.specs.Prelude.{◌≡◌, ◌≤◌, ◌<◌, length};
ghost use Rattle.grammar.specs.Size.{unit_size};
ghost use Rattle.dots_label.specs.Walked.{line_from};

use byte_slices::scan::{find, line_size};
use graphics::gw_span::{Graphic, gw_span};

// How many bytes the unit that stands first in rest has.
fn unit_size(rest: &[u8]) -> usize
    ensures { result ≡ unit_size rest.now }
{
    match gw_span(rest) {
        Graphic::NoGraphic => line_size(find(rest, 10), rest.len()),
        Graphic::Refused(_) => line_size(find(rest, 10), rest.len()),
        Graphic::Span(g) => g.data_end,
    }
}

// The first byte of the unit that ends at the place `to`, units beginning at the place `from`.
pub(crate) fn line_start(input: &[u8], from: usize, to: usize) -> usize
    requires { (from < to) × (to ≤ length input.now) }
    ensures { result ≡ line_from input.now from to }
{
    let mut at = from;
    loop {
        let next = at + unit_size(&input[at..]);
        if to <= next {
            return at;
        }
        at = next;
    }
}
