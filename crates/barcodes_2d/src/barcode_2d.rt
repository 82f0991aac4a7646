// `b`: 2D bar codes. Fields: x, y, type, parameters.
ghost use Rattle.std.specs.Prelude.{◌≡◌, not, ◌≤◌, leb, pos, ◌*ℤ◌, length};
ghost use Rattle.std.specs.Int.Signed.{mag};
ghost use Rattle.text.specs.Utf8.{decode};
ghost use Rattle.parameters.specs.Params.{type_at};
ghost use Rattle.text.specs.Fields.{after};
ghost use Rattle.barcodes_2d.specs.Options.{clamped_or};
ghost use Rattle.barcodes_2d.specs.OptionSteps.{level_byte, number_of};
ghost use Rattle.barcodes_2d.specs.Barcode2d.{symbology_of, aztec_size, aztec_of, datamatrix_of, mode_of, pdf417_of, aztec_reading, datamatrix_reading, maxicode_reading, pdf417_reading, qr_reading, barcode2d_at, barcode2d_reading};

use crate::maxicode::auto_maxicode_mode;
use crate::options::{clamped_or, number_or, options_of};
use byte_slices::scan::find;
use byte_slices::utf8::decoded_len;
use elements::refusal::Refusal;
use elements::{
    BarcodeAztec, BarcodeAztecWithData, BarcodeDatamatrix, BarcodeDatamatrixWithData,
    BarcodePdf417, BarcodePdf417WithData, BarcodeQr, BarcodeQrWithData, DataSpan, LabelElement,
    LabelPosition, Maxicode, MaxicodeWithData, QrErrorCorrectionLevel,
};
use numbers::blank::trim;
use parameters::params::{point_from, reaches, rest_from};
use parameters::position::{Placed, place};
use parameters::reading::LineReading;
use parameters::rotation::epl_rotation;

#[derive(Clone, Copy)]
pub enum Symbology2d {
    Aztec,
    Datamatrix,
    Maxicode,
    Pdf417,
    Qr,
    Unlisted,
}

// The type that t spells: `A`, `D`, `M`, `P`, `Q`.
pub(crate) fn symbology_of(t: &[u8]) -> Symbology2d
    ensures { result ≡ symbology_of t.now }
{
    if t.len() != 1 {
        return Symbology2d::Unlisted;
    }
    let a = t[0];
    match a {
        b'A' => Symbology2d::Aztec,
        b'D' => Symbology2d::Datamatrix,
        b'M' => Symbology2d::Maxicode,
        b'P' => Symbology2d::Pdf417,
        b'Q' => Symbology2d::Qr,
        _ => Symbology2d::Unlisted,
    }
}

// 1 to 99 error correction, 101 to 104 compact layers, 201 to 232 full layers, 300 a rune; any other is 0.
pub(crate) fn aztec_size(n: i32) -> i32
    ensures { result ≡ aztec_size n }
{
    match n {
        1..=99 | 101..=104 | 201..=232 | 300 => n,
        _ => BarcodeAztec::SIZE,
    }
}

pub(crate) fn aztec_options(s: &[u8]) -> BarcodeAztec
    ensures { result ≡ aztec_of s.now }
{
    let o = options_of(s);
    let magnification = clamped_or(
        o.d,
        BarcodeAztec::MAGNIFICATION,
        BarcodeAztec::MAGNIFICATION_MIN,
        BarcodeAztec::MAGNIFICATION_MAX,
    );
    let size = aztec_size(number_or(o.e, BarcodeAztec::SIZE));
    BarcodeAztec {
        magnification,
        size,
    }
}

pub(crate) fn datamatrix_options(s: &[u8]) -> BarcodeDatamatrix
    ensures { result ≡ datamatrix_of s.now }
{
    let o = options_of(s);
    let height = clamped_or(
        o.h,
        BarcodeDatamatrix::HEIGHT,
        BarcodeDatamatrix::HEIGHT_MIN,
        BarcodeDatamatrix::HEIGHT_MAX,
    );
    let columns = number_or(o.c, 0);
    let rows = number_or(o.r, 0);
    BarcodeDatamatrix {
        height,
        columns,
        rows,
    }
}

// The mode that the last `m` gives where it is 2, 3, 4 or 6; else the automatic one.
pub(crate) fn maxicode_mode(s: &[u8], data: &[u8]) -> i32
    ensures { result ≡ mode_of s.now «data».now }
{
    let o = options_of(s);
    let m = number_or(o.m, 0);
    match m {
        2 | 3 | 4 | 6 => m,
        _ => auto_maxicode_mode(data),
    }
}

// 4 module widths where `y` gives none.
fn pdf417_row_height(y: u32, module_width: i32) -> i32
    requires { mag module_width ≤ 9 }
    ensures { result ≡ clamped_or (pos 4 *ℤ module_width) (pos 4) (pos 99) (number_of y) }
{
    clamped_or(
        y,
        BarcodePdf417::ROW_HEIGHT_MODULES * module_width,
        BarcodePdf417::ROW_HEIGHT_MIN,
        BarcodePdf417::ROW_HEIGHT_MAX,
    )
}

pub(crate) fn pdf417_options(s: &[u8]) -> BarcodePdf417
    ensures { result ≡ pdf417_of s.now }
{
    let o = options_of(s);
    let orientation = epl_rotation(number_or(o.o, BarcodePdf417::ROTATION));
    let module_width = clamped_or(
        o.x,
        BarcodePdf417::MODULE_WIDTH,
        BarcodePdf417::MODULE_WIDTH_MIN,
        BarcodePdf417::MODULE_WIDTH_MAX,
    );
    let row_height = pdf417_row_height(o.y, module_width);
    let security = clamped_or(
        o.s,
        BarcodePdf417::SECURITY,
        BarcodePdf417::SECURITY_MIN,
        BarcodePdf417::SECURITY_MAX,
    );
    let columns = number_or(o.l, 0);
    let rows = number_or(o.r, 0);
    BarcodePdf417 {
        orientation,
        row_height,
        security,
        columns,
        rows,
        truncate: o.truncate,
        module_width,
    }
}

// The level of its letter: M where there is none.
pub(crate) fn qr_level(b: u8) -> QrErrorCorrectionLevel
    ensures { result ≡ level_byte b }
{
    match b {
        b'L' => QrErrorCorrectionLevel::L,
        b'Q' => QrErrorCorrectionLevel::Q,
        b'H' => QrErrorCorrectionLevel::H,
        _ => QrErrorCorrectionLevel::M,
    }
}

// One function a type: its parameters, and where it stands.
pub(crate) fn aztec(s: &[u8], at: Placed, span: DataSpan) -> LineReading
    ensures { result ≡ aztec_reading s.now at span }
{
    let Placed::At(position) = at else {
        return LineReading::Refused(Refusal::OutOfRange);
    };
    let barcode = aztec_options(s);
    LineReading::Element(LabelElement::BarcodeAztec(BarcodeAztecWithData {
        barcode,
        position,
        data: span,
    }))
}

pub(crate) fn datamatrix(s: &[u8], at: Placed, span: DataSpan) -> LineReading
    ensures { result ≡ datamatrix_reading s.now at span }
{
    let Placed::At(position) = at else {
        return LineReading::Refused(Refusal::OutOfRange);
    };
    let barcode = datamatrix_options(s);
    LineReading::Element(LabelElement::BarcodeDatamatrix(BarcodeDatamatrixWithData {
        barcode,
        position,
        data: span,
    }))
}

pub(crate) fn maxicode(s: &[u8], data: &[u8], at: Placed, span: DataSpan) -> LineReading
    ensures { result ≡ maxicode_reading s.now «data».now at span }
{
    let Placed::At(position) = at else {
        return LineReading::Refused(Refusal::OutOfRange);
    };
    let mode = maxicode_mode(s, data);
    LineReading::Element(LabelElement::Maxicode(MaxicodeWithData {
        code: Maxicode { mode },
        position,
        data: span,
    }))
}

pub(crate) fn pdf417(s: &[u8], at: Placed, span: DataSpan) -> LineReading
    ensures { result ≡ pdf417_reading s.now at span }
{
    let Placed::At(position) = at else {
        return LineReading::Refused(Refusal::OutOfRange);
    };
    let barcode = pdf417_options(s);
    LineReading::Element(LabelElement::BarcodePdf417(BarcodePdf417WithData {
        barcode,
        position,
        data: span,
    }))
}

// The decoded data is over its limit. A byte is decoded to three at most, so that short data is not counted.
fn is_over(data: &[u8]) -> bool
    ensures { result ≡ not (leb (length (decode «data».now)) 9999) }
{
    if data.len() <= BarcodeQr::DATA_MAX / 3 {
        return false;
    }
    BarcodeQr::DATA_MAX < decoded_len(data, BarcodeQr::DATA_MAX + 1)
}

// 9 where the decoded data is over its limit, then 13.
pub(crate) fn qr(s: &[u8], data: &[u8], at: Placed, span: DataSpan) -> LineReading
    ensures { result ≡ qr_reading s.now «data».now at span }
{
    if is_over(data) {
        return LineReading::Refused(Refusal::QrData);
    }
    let Placed::At(position) = at else {
        return LineReading::Refused(Refusal::OutOfRange);
    };
    let o = options_of(s);
    let magnification = clamped_or(
        o.s,
        BarcodeQr::MAGNIFICATION,
        BarcodeQr::MAGNIFICATION_MIN,
        BarcodeQr::MAGNIFICATION_MAX,
    );
    let error_correction = qr_level(o.level);
    LineReading::Element(LabelElement::BarcodeQr(BarcodeQrWithData {
        barcode: BarcodeQr { magnification },
        error_correction,
        position,
        data: span,
    }))
}

// The bar code of a type, with its parameters s, its data, and where it stands.
pub(crate) fn barcode_2d_at(
    t: Symbology2d,
    s: &[u8],
    data: &[u8],
    at: Placed,
    span: DataSpan,
) -> LineReading
    ensures { result ≡ barcode2d_at t s.now «data».now at span }
{
    match t {
        Symbology2d::Aztec => aztec(s, at, span),
        Symbology2d::Datamatrix => datamatrix(s, at, span),
        Symbology2d::Maxicode => maxicode(s, data, at, span),
        Symbology2d::Pdf417 => pdf417(s, at, span),
        Symbology2d::Qr => qr(s, data, at, span),
        Symbology2d::Unlisted => LineReading::Refused(Refusal::Barcode2dType),
    }
}

// The third field on: type and parameters.
fn typed_2d(s: &[u8], data: &[u8], at: Placed, span: DataSpan) -> LineReading
    ensures { result ≡ barcode2d_at (symbology_of (type_at s.now)) (after 44 s.now) «data».now at span }
{
    let n = find(s, b',');
    let t = symbology_of(trim(&s[..n]));
    barcode_2d_at(t, rest_from(s, n + 1), data, at, span)
}

// A line's parameters and data, at a reference.
pub fn parse_epl_2d_barcode(
    params: &[u8],
    data: &[u8],
    span: DataSpan,
    reference: LabelPosition,
) -> LineReading
    ensures { result ≡ barcode2d_reading params.now «data».now span reference }
{
    let p = point_from(params, 0);
    if !reaches(p.next < params.len(), params, 3) {
        return LineReading::Refused(Refusal::Barcode2dFields);
    }
    let point = p.point;
    let at = place(point.x, point.y, reference);
    typed_2d(rest_from(params, p.next), data, at, span)
}
