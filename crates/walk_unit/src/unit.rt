// One unit: what stands first, and what it does at a reference. `GW` is looked for first, so that no LF is searched
// behind it.
ghost use Rattle.std.specs.Prelude.{◌≡◌, ◌+◌, ◌<◌, length, take};
ghost use Rattle.walk_theory.specs.Reading.{did, reading_of, moved};
ghost use Rattle.grammar.specs.Epl.{epl, act_of};
ghost use Rattle.grammar.specs.Turn.{line_turn};
ghost use Rattle.text.specs.Fields.{index_of};
ghost use Rattle.text.specs.Scan.{size_by};
ghost use Rattle.walk_unit.specs.Unit.{unit_of};

use byte_slices::scan::{find, line_size};
use commands::line::read_line;
use elements::refusal::Refusal;
use elements::{LabelElement, LabelPosition};
use graphics::gw_span::{Block, read_block};
use parameters::reading::LineReading;

// What stands first: nothing, a fault, or a unit of that many bytes with what it does.
#[derive(Clone, Copy)]
pub enum Reading {
    End,
    Fault(Refusal),
    // The unit is passed, with this reference from here on.
    Passed(usize, LabelPosition),
    Cleared(usize),
    Element(LabelElement, usize),
    // With sets and copies.
    Print(usize, i32, i32),
}

// A line of so many bytes, by what it says.
fn line_unit(size: usize, said: LineReading, reference: LabelPosition) -> Reading
    ensures { unit_of result ≡ did size (act_of reference said) }
{
    match said {
        LineReading::Passed => Reading::Passed(size, reference),
        LineReading::Clear => Reading::Cleared(size),
        LineReading::Reference(x, y) => Reading::Passed(size, LabelPosition { x, y }),
        LineReading::Element(e) => Reading::Element(e, size),
        LineReading::Print(sets, copies) => Reading::Print(size, sets, copies),
        LineReading::Refused(n) => Reading::Fault(n),
    }
}

// The line that stands first in rest, itself at the place `at`, whatever it says.
fn read_text_line(rest: &[u8], at: usize, reference: LabelPosition) -> Reading
    requires { at + length rest.now < 18446744073709551616 }
    ensures { unit_of result ≡ moved epl at (line_turn (size_by (index_of 10 rest.now) (length rest.now)) reference (take (index_of 10 rest.now) rest.now)) }
{
    let n = find(rest, 10);
    let size = line_size(n, rest.len());
    line_unit(size, read_line(&rest[..n], at, reference), reference)
}

// The unit that stands first in rest, which goes from the place `at` to the end of input.
pub fn read_unit(rest: &[u8], at: usize, reference: LabelPosition) -> Reading
    requires { at + length rest.now < 18446744073709551616 }
    ensures { unit_of result ≡ moved epl at (reading_of epl rest.now reference) }
{
    if rest.len() == 0 {
        return Reading::End;
    }
    match read_block(rest, at, reference) {
        Block::NoBlock => read_text_line(rest, at, reference),
        Block::Refused(n) => Reading::Fault(n),
        Block::Element(e, size) => Reading::Element(e, size),
    }
}
