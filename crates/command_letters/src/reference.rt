// `R`: the reference point.
ghost use Rattle.std.specs.Prelude.{◌≡◌};
ghost use Rattle.command_letters.specs.Reference.{reference_of};

use byte_slices::fields::after_field;
use byte_slices::scan::find;
use elements::LabelPosition;
use numbers::number::number_or;
use parameters::params::field_from;

// The reference that the parameters behind `R` set. x, then all after the first comma as y; without a comma y stays.
// So R7 keeps y, and R7, and R7,2,3 give y 0: 2,3 is no number.
pub fn parse_epl_reference(params: &[u8], reference: LabelPosition) -> LabelPosition
    ensures { result ≡ reference_of params.now reference }
{
    let first = field_from(params, 0, 0);
    let x = first.value;
    if find(params, b',') == params.len() {
        return LabelPosition { x, y: reference.y };
    }
    let y = number_or(after_field(params), 0);
    LabelPosition { x, y }
}
