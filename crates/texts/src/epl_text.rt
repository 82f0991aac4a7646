// `A`: text. Fields: x, y, rotation, font, horizontal multiplier, vertical multiplier, reverse.
ghost use Rattle.std.specs.Prelude.{◌≡◌};
ghost use Rattle.texts.specs.Text.{text_element, text_reading};

use crate::fonts::{Scaled, font_info};
use elements::refusal::Refusal;
use elements::{DataSpan, FontScale, LabelElement, LabelPosition, TextField};
use parameters::params::{is_exactly, number_from, reaches, rest_from, size_from};
use parameters::position::{Placed, place};
use parameters::reading::LineReading;

#[derive(Clone, Copy)]
pub struct TextFields {
    pub at: LabelPosition,
    pub rotation: i32,
    pub scale: FontScale,
    pub reverse: bool,
}

// The text at a reference: 13, then 19.
pub(crate) fn text_element(f: TextFields, span: DataSpan, reference: LabelPosition) -> LineReading
    ensures { result ≡ text_element f span reference }
{
    let at = f.at;
    let scale = f.scale;
    let Placed::At(position) = place(at.x, at.y, reference) else {
        return LineReading::Refused(Refusal::OutOfRange);
    };
    let Scaled::Font(font) = font_info(scale.font, scale.horizontal, scale.vertical, f.rotation)
    else {
        return LineReading::Refused(Refusal::SizeOutside);
    };
    LineReading::Element(LabelElement::Text(TextField {
        position,
        reverse_print: f.reverse,
        scale,
        font,
        text: span,
    }))
}

// A line's parameters and data, at a reference. The fields are counted only where nothing stands behind the sixth.
pub fn parse_epl_text(params: &[u8], span: DataSpan, reference: LabelPosition) -> LineReading
    ensures { result ≡ text_reading params.now span reference }
{
    let x = number_from(params, 0, 0);
    let y = number_from(params, x.next, 0);
    let rotation = number_from(params, y.next, 0);
    let font = number_from(params, rotation.next, 1);
    let h_mult = size_from(params, font.next, 1);
    let v_mult = size_from(params, h_mult.next, 1);
    if !reaches(v_mult.next < params.len(), params, 7) {
        return LineReading::Refused(Refusal::TextFields);
    }
    let reverse = is_exactly(rest_from(params, v_mult.next), b'R');
    let at = LabelPosition {
        x: x.value,
        y: y.value,
    };
    let scale = FontScale {
        font: font.value,
        horizontal: h_mult.value,
        vertical: v_mult.value,
    };
    let fields = TextFields {
        at,
        rotation: rotation.value,
        scale,
        reverse,
    };
    text_element(fields, span, reference)
}
