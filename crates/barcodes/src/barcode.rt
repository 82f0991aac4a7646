// `B`: bar codes. Fields: x, y, rotation, type, narrow bar, wide bar, bar height, line.
ghost use Rattle.std.specs.Prelude.{◌≡◌, ◌≤◌, length, take};
ghost use Rattle.text.specs.Blank.{trim};
ghost use Rattle.barcodes.specs.Letters.{one_letter, code128_letter, two_letters, three_letters};
ghost use Rattle.barcodes.specs.Barcode.{symbology_of, is_listed, code128, interleaved, code39, ean13, ean8, upc_a, upc_e, barcode_element, barcode_at, barcode_reading};

use crate::ratio::bar_ratio;
use byte_slices::scan::find;
use elements::refusal::Refusal;
use elements::{
    Barcode2of5, Barcode2of5WithData, Barcode39, Barcode39WithData, Barcode128, Barcode128WithData,
    BarcodeEan8, BarcodeEan8WithData, BarcodeEan13, BarcodeEan13WithData, BarcodeMode, BarcodeUca,
    BarcodeUcaWithData, BarcodeUcpe, BarcodeUcpeWithData, DataSpan, FieldOrientation, LabelElement,
    LabelPosition,
};
use numbers::blank::trim;
use parameters::params::{is_exactly, number_from, reaches, rest_from, size_from};
use parameters::position::{Placed, place};
use parameters::reading::LineReading;
use parameters::rotation::epl_rotation;

// What the fourth field says.
#[derive(Clone, Copy)]
pub enum Symbology {
    Code128(BarcodeMode),
    // With a check digit, or without.
    Interleaved(bool),
    Code39(bool),
    Ean13,
    Ean8,
    UpcA,
    UpcE,
    Unlisted,
}

// Types of one character.
pub(crate) fn one_letter(a: u8) -> Symbology
    ensures { result ≡ one_letter a }
{
    match a {
        b'0' => Symbology::Code128(BarcodeMode::Ucc),
        b'1' => Symbology::Code128(BarcodeMode::Automatic),
        b'2' => Symbology::Interleaved(false),
        b'3' => Symbology::Code39(false),
        _ => Symbology::Unlisted,
    }
}

// Types of two characters, the first of which is 1: `1A`, `1B`, `1C`, `1E`.
pub(crate) fn code_128_letter(b: u8) -> Symbology
    ensures { result ≡ code128_letter b }
{
    if (b == b'A') | (b == b'B') | (b == b'C') {
        return Symbology::Code128(BarcodeMode::Automatic);
    }
    if b == b'E' {
        return Symbology::Code128(BarcodeMode::Ean);
    }
    Symbology::Unlisted
}

// Types of two characters: `1A`, `1B`, `1C`, `1E`, `2C`, `2D`, `3C`.
pub(crate) fn two_letters(a: u8, b: u8) -> Symbology
    ensures { result ≡ two_letters a b }
{
    if a == b'1' {
        return code_128_letter(b);
    }
    if (a == b'2') & ((b == b'C') | (b == b'D')) {
        return Symbology::Interleaved(true);
    }
    if (a == b'3') & (b == b'C') {
        return Symbology::Code39(true);
    }
    Symbology::Unlisted
}

// Types of three characters: `E30`, `E80`, `UA0`, `UE0`.
pub(crate) fn three_letters(a: u8, b: u8, c: u8) -> Symbology
    ensures { result ≡ three_letters a b c }
{
    if (a == b'E') & (b == b'3') & (c == b'0') {
        return Symbology::Ean13;
    }
    if (a == b'E') & (b == b'8') & (c == b'0') {
        return Symbology::Ean8;
    }
    if (a == b'U') & (b == b'A') & (c == b'0') {
        return Symbology::UpcA;
    }
    if (a == b'U') & (b == b'E') & (c == b'0') {
        return Symbology::UpcE;
    }
    Symbology::Unlisted
}

// The type that t spells.
pub(crate) fn symbology_of(t: &[u8]) -> Symbology
    ensures { result ≡ symbology_of t.now }
{
    if t.len() == 1 {
        return one_letter(t[0]);
    }
    if t.len() == 2 {
        return two_letters(t[0], t[1]);
    }
    if t.len() == 3 {
        return three_letters(t[0], t[1], t[2]);
    }
    Symbology::Unlisted
}

// The type in the first n bytes, their blanks off.
fn symbology_upto(t: &[u8], n: usize) -> Symbology
    requires { n ≤ length t.now }
    ensures { result ≡ symbology_of (trim (take n t.now)) }
{
    symbology_of(trim(&t[..n]))
}

pub(crate) fn is_listed(s: Symbology) -> bool
    ensures { result ≡ is_listed s }
{
    match s {
        Symbology::Unlisted => false,
        _ => true,
    }
}

#[derive(Clone, Copy)]
pub struct Bars {
    pub narrow: i32,
    pub wide: i32,
    pub height: i32,
    pub line: bool,
}

#[derive(Clone, Copy)]
pub struct BarcodeFields {
    pub at: LabelPosition,
    pub rotation: i32,
    pub symbology: Symbology,
    pub bars: Bars,
}

// What a bar code of any type has.
#[derive(Clone, Copy)]
pub struct Barcode {
    pub orientation: FieldOrientation,
    pub bars: Bars,
    pub position: LabelPosition,
    pub data: DataSpan,
}

// Code 128.
pub(crate) fn code_128(mode: BarcodeMode, b: Barcode) -> LineReading
    ensures { result ≡ code128 mode b }
{
    let orientation = b.orientation;
    let bars = b.bars;
    let position = b.position;
    let data = b.data;
    LineReading::Element(LabelElement::Barcode128(Barcode128WithData {
        barcode: Barcode128 {
            orientation,
            height: bars.height,
            line: bars.line,
            mode,
        },
        width: bars.narrow,
        position,
        data,
    }))
}

// 2 of 5, with a check digit or without.
pub(crate) fn interleaved(check: bool, b: Barcode) -> LineReading
    ensures { result ≡ interleaved check b }
{
    let orientation = b.orientation;
    let bars = b.bars;
    let position = b.position;
    let data = b.data;
    LineReading::Element(LabelElement::Barcode2of5(Barcode2of5WithData {
        barcode: Barcode2of5 {
            orientation,
            height: bars.height,
            line: bars.line,
            check_digit: check,
        },
        width: bars.narrow,
        wide: bars.wide,
        width_ratio: bar_ratio(bars.wide, bars.narrow),
        position,
        data,
    }))
}

// Code 39, with a check digit or without.
pub(crate) fn code_39(check: bool, b: Barcode) -> LineReading
    ensures { result ≡ code39 check b }
{
    let orientation = b.orientation;
    let bars = b.bars;
    let position = b.position;
    let data = b.data;
    LineReading::Element(LabelElement::Barcode39(Barcode39WithData {
        barcode: Barcode39 {
            orientation,
            height: bars.height,
            line: bars.line,
            check_digit: check,
        },
        width: bars.narrow,
        wide: bars.wide,
        width_ratio: bar_ratio(bars.wide, bars.narrow),
        position,
        data,
    }))
}

// EAN-13.
pub(crate) fn ean_13(b: Barcode) -> LineReading
    ensures { result ≡ ean13 b }
{
    let orientation = b.orientation;
    let bars = b.bars;
    let position = b.position;
    let data = b.data;
    LineReading::Element(LabelElement::BarcodeEan13(BarcodeEan13WithData {
        barcode: BarcodeEan13 {
            orientation,
            height: bars.height,
            line: bars.line,
        },
        width: bars.narrow,
        position,
        data,
    }))
}

// EAN-8.
pub(crate) fn ean_8(b: Barcode) -> LineReading
    ensures { result ≡ ean8 b }
{
    let orientation = b.orientation;
    let bars = b.bars;
    let position = b.position;
    let data = b.data;
    LineReading::Element(LabelElement::BarcodeEan8(BarcodeEan8WithData {
        barcode: BarcodeEan8 {
            orientation,
            height: bars.height,
            line: bars.line,
        },
        width: bars.narrow,
        position,
        data,
    }))
}

// UPC-A.
pub(crate) fn upc_a(b: Barcode) -> LineReading
    ensures { result ≡ upc_a b }
{
    let orientation = b.orientation;
    let bars = b.bars;
    let position = b.position;
    let data = b.data;
    LineReading::Element(LabelElement::BarcodeUca(BarcodeUcaWithData {
        barcode: BarcodeUca {
            orientation,
            height: bars.height,
            line: bars.line,
        },
        width: bars.narrow,
        position,
        data,
    }))
}

// UPC-E.
pub(crate) fn upc_e(b: Barcode) -> LineReading
    ensures { result ≡ upc_e b }
{
    let orientation = b.orientation;
    let bars = b.bars;
    let position = b.position;
    let data = b.data;
    LineReading::Element(LabelElement::BarcodeUcpe(BarcodeUcpeWithData {
        barcode: BarcodeUcpe {
            orientation,
            height: bars.height,
            line: bars.line,
        },
        width: bars.narrow,
        position,
        data,
    }))
}

// The bar code of a listed type.
pub(crate) fn barcode_element(s: Symbology, b: Barcode) -> LineReading
    ensures { result ≡ barcode_element s b }
{
    match s {
        Symbology::Code128(mode) => code_128(mode, b),
        Symbology::Interleaved(check) => interleaved(check, b),
        Symbology::Code39(check) => code_39(check, b),
        Symbology::Ean13 => ean_13(b),
        Symbology::Ean8 => ean_8(b),
        Symbology::UpcA => upc_a(b),
        Symbology::UpcE => upc_e(b),
        Symbology::Unlisted => LineReading::Refused(Refusal::BarcodeType),
    }
}

// The bar code at a reference: 7, then 13.
pub(crate) fn barcode_at(f: BarcodeFields, span: DataSpan, reference: LabelPosition) -> LineReading
    ensures { result ≡ barcode_at f span reference }
{
    let s = f.symbology;
    let at = f.at;
    let bars = f.bars;
    if !is_listed(s) {
        return LineReading::Refused(Refusal::BarcodeType);
    }
    let Placed::At(position) = place(at.x, at.y, reference) else {
        return LineReading::Refused(Refusal::OutOfRange);
    };
    let orientation = epl_rotation(f.rotation);
    barcode_element(
        s,
        Barcode {
            orientation,
            bars,
            position,
            data: span,
        },
    )
}

// A line's parameters and data, at a reference. The fields are counted only where nothing stands behind the seventh.
pub fn parse_epl_barcode(params: &[u8], span: DataSpan, reference: LabelPosition) -> LineReading
    ensures { result ≡ barcode_reading params.now span reference }
{
    let x = number_from(params, 0, 0);
    let y = number_from(params, x.next, 0);
    let rotation = number_from(params, y.next, 0);
    let t = rest_from(params, rotation.next);
    let n = find(t, b',');
    let narrow = size_from(t, n + 1, 1);
    let wide = number_from(t, narrow.next, 2);
    let height = size_from(t, wide.next, 10);
    if !reaches(height.next < t.len(), params, 8) {
        return LineReading::Refused(Refusal::BarcodeFields);
    }
    let symbology = symbology_upto(t, n);
    let line = is_exactly(rest_from(t, height.next), b'B');
    let at = LabelPosition {
        x: x.value,
        y: y.value,
    };
    let bars = Bars {
        narrow: narrow.value,
        wide: wide.value,
        height: height.value,
        line,
    };
    let fields = BarcodeFields {
        at,
        rotation: rotation.value,
        symbology,
        bars,
    };
    barcode_at(fields, span, reference)
}
