// The element that a struct with any bytes in any field stands for, kind by kind.
ghost use Rattle.std.specs.Prelude.{◌≡◌};
ghost use Rattle.structs_read.specs.Unflat.{orientation_of, colour_of, mode_of, level_of, at, span, scale_of, font_of};
ghost use Rattle.structs_read.specs.Unflat.{text_of, box_of, diagonal_of, graphic_of, code128_of, ean13_of, ean8_of, upca_of};
ghost use Rattle.structs_read.specs.Unflat.{interleaved_of, code39_of, pdf417_of, aztec_of, datamatrix_of, qr_of, maxicode_of};
ghost use Rattle.structs_read.specs.Unflat.{upce_of, element_of, standing};

use crate::same::same;
use elements::{
    Barcode2of5, Barcode2of5WithData, Barcode39, Barcode39WithData, Barcode128, Barcode128WithData,
    BarcodeAztec, BarcodeAztecWithData, BarcodeDatamatrix, BarcodeDatamatrixWithData, BarcodeEan8,
    BarcodeEan8WithData, BarcodeEan13, BarcodeEan13WithData, BarcodeMode, BarcodePdf417,
    BarcodePdf417WithData, BarcodeQr, BarcodeQrWithData, BarcodeUca, BarcodeUcaWithData,
    BarcodeUcpe, BarcodeUcpeWithData, DataSpan, FieldOrientation, FontInfo, FontScale, GraphicBox,
    GraphicDiagonalLine, GraphicField, LabelElement, LabelPosition, LineColor, Maxicode,
    MaxicodeWithData, QrErrorCorrectionLevel, TextField,
};
use numbers::int::equal;
use structs::answer::Element;
use structs::element::struct_of;

// Quarter turns; any other number is none.
fn orientation_of(r: u8) -> FieldOrientation
    ensures { result ≡ orientation_of r }
{
    match r {
        1 => FieldOrientation::Rotated90,
        2 => FieldOrientation::Rotated180,
        3 => FieldOrientation::Rotated270,
        _ => FieldOrientation::Normal,
    }
}

fn colour_of(c: u8) -> LineColor
    ensures { result ≡ colour_of c }
{
    match c {
        1 => LineColor::White,
        2 => LineColor::Xor,
        _ => LineColor::Black,
    }
}

fn mode_of(m: i32) -> BarcodeMode
    ensures { result ≡ mode_of m }
{
    if equal(m, 1) {
        return BarcodeMode::Ucc;
    }
    if equal(m, 3) {
        return BarcodeMode::Ean;
    }
    BarcodeMode::Automatic
}

fn level_of(b: u8) -> QrErrorCorrectionLevel
    ensures { result ≡ level_of b }
{
    match b {
        b'H' => QrErrorCorrectionLevel::H,
        b'Q' => QrErrorCorrectionLevel::Q,
        b'L' => QrErrorCorrectionLevel::L,
        _ => QrErrorCorrectionLevel::M,
    }
}

fn at(x: Element) -> LabelPosition
    ensures { result ≡ at x }
{
    LabelPosition { x: x.x, y: x.y }
}

fn span(x: Element) -> DataSpan
    ensures { result ≡ span x }
{
    DataSpan {
        start: x.data_start,
        len: x.data_len,
    }
}

fn scale_of(x: Element) -> FontScale
    ensures { result ≡ scale_of x }
{
    FontScale {
        font: x.font,
        horizontal: x.horizontal,
        vertical: x.vertical,
    }
}

fn font_of(x: Element) -> FontInfo
    ensures { result ≡ font_of x }
{
    let rotation = orientation_of(x.rotation);
    FontInfo {
        height: x.text_height,
        width: x.text_width,
        rotation,
    }
}

// Kind 01.
fn text_of(x: Element) -> TextField
    ensures { result ≡ text_of x }
{
    let position = at(x);
    let scale = scale_of(x);
    let font = font_of(x);
    let text = span(x);
    TextField {
        position,
        reverse_print: x.reverse == 1,
        scale,
        font,
        text,
    }
}

// Kind 02.
fn box_of(x: Element) -> GraphicBox
    ensures { result ≡ box_of x }
{
    let position = at(x);
    let line_color = colour_of(x.colour);
    GraphicBox {
        position,
        width: x.width,
        height: x.height,
        border_thickness: x.thickness,
        line_color,
    }
}

// Kind 03.
fn diagonal_of(x: Element) -> GraphicDiagonalLine
    ensures { result ≡ diagonal_of x }
{
    let position = at(x);
    GraphicDiagonalLine {
        position,
        width: x.width,
        height: x.height,
        border_thickness: x.thickness,
        top_to_bottom: x.direction == 1,
    }
}

// Kind 04.
fn graphic_of(x: Element) -> GraphicField
    ensures { result ≡ graphic_of x }
{
    let position = at(x);
    let data = span(x);
    GraphicField {
        position,
        row_bytes: x.row_bytes,
        data,
    }
}

// Kind 05.
fn code_128_of(x: Element) -> Barcode128WithData
    ensures { result ≡ code128_of x }
{
    let position = at(x);
    let data = span(x);
    let orientation = orientation_of(x.rotation);
    let mode = mode_of(x.mode);
    let barcode = Barcode128 {
        orientation,
        height: x.height,
        line: x.line == 1,
        mode,
    };
    Barcode128WithData {
        barcode,
        width: x.width,
        position,
        data,
    }
}

// Kind 06.
fn ean13_of(x: Element) -> BarcodeEan13WithData
    ensures { result ≡ ean13_of x }
{
    let position = at(x);
    let data = span(x);
    let orientation = orientation_of(x.rotation);
    let barcode = BarcodeEan13 {
        orientation,
        height: x.height,
        line: x.line == 1,
    };
    BarcodeEan13WithData {
        barcode,
        width: x.width,
        position,
        data,
    }
}

// Kind 07.
fn ean8_of(x: Element) -> BarcodeEan8WithData
    ensures { result ≡ ean8_of x }
{
    let position = at(x);
    let data = span(x);
    let orientation = orientation_of(x.rotation);
    let barcode = BarcodeEan8 {
        orientation,
        height: x.height,
        line: x.line == 1,
    };
    BarcodeEan8WithData {
        barcode,
        width: x.width,
        position,
        data,
    }
}

// Kind 08.
fn upca_of(x: Element) -> BarcodeUcaWithData
    ensures { result ≡ upca_of x }
{
    let position = at(x);
    let data = span(x);
    let orientation = orientation_of(x.rotation);
    let barcode = BarcodeUca {
        orientation,
        height: x.height,
        line: x.line == 1,
    };
    BarcodeUcaWithData {
        barcode,
        width: x.width,
        position,
        data,
    }
}

// Kind 09.
fn interleaved_of(x: Element) -> Barcode2of5WithData
    ensures { result ≡ interleaved_of x }
{
    let position = at(x);
    let data = span(x);
    let orientation = orientation_of(x.rotation);
    let barcode = Barcode2of5 {
        orientation,
        height: x.height,
        line: x.line == 1,
        check_digit: x.check == 1,
    };
    Barcode2of5WithData {
        barcode,
        width: x.width,
        wide: x.wide,
        width_ratio: x.ratio,
        position,
        data,
    }
}

// Kind 0a.
fn code_39_of(x: Element) -> Barcode39WithData
    ensures { result ≡ code39_of x }
{
    let position = at(x);
    let data = span(x);
    let orientation = orientation_of(x.rotation);
    let barcode = Barcode39 {
        orientation,
        height: x.height,
        line: x.line == 1,
        check_digit: x.check == 1,
    };
    Barcode39WithData {
        barcode,
        width: x.width,
        wide: x.wide,
        width_ratio: x.ratio,
        position,
        data,
    }
}

// Kind 0b.
fn pdf417_of(x: Element) -> BarcodePdf417WithData
    ensures { result ≡ pdf417_of x }
{
    let position = at(x);
    let data = span(x);
    let orientation = orientation_of(x.rotation);
    let barcode = BarcodePdf417 {
        orientation,
        row_height: x.height,
        security: x.security,
        columns: x.columns,
        rows: x.rows,
        truncate: x.truncate == 1,
        module_width: x.width,
    };
    BarcodePdf417WithData {
        barcode,
        position,
        data,
    }
}

// Kind 0c.
fn aztec_of(x: Element) -> BarcodeAztecWithData
    ensures { result ≡ aztec_of x }
{
    let position = at(x);
    let data = span(x);
    let barcode = BarcodeAztec {
        magnification: x.magnification,
        size: x.size,
    };
    BarcodeAztecWithData {
        barcode,
        position,
        data,
    }
}

// Kind 0d.
fn datamatrix_of(x: Element) -> BarcodeDatamatrixWithData
    ensures { result ≡ datamatrix_of x }
{
    let position = at(x);
    let data = span(x);
    let barcode = BarcodeDatamatrix {
        height: x.height,
        columns: x.columns,
        rows: x.rows,
    };
    BarcodeDatamatrixWithData {
        barcode,
        position,
        data,
    }
}

// Kind 0e.
fn qr_of(x: Element) -> BarcodeQrWithData
    ensures { result ≡ qr_of x }
{
    let position = at(x);
    let data = span(x);
    let error_correction = level_of(x.level);
    let barcode = BarcodeQr {
        magnification: x.magnification,
    };
    BarcodeQrWithData {
        barcode,
        error_correction,
        position,
        data,
    }
}

// Kind 0f.
fn maxicode_of(x: Element) -> MaxicodeWithData
    ensures { result ≡ maxicode_of x }
{
    let position = at(x);
    let data = span(x);
    let code = Maxicode { mode: x.mode };
    MaxicodeWithData {
        code,
        position,
        data,
    }
}

// Kind 10.
fn upce_of(x: Element) -> BarcodeUcpeWithData
    ensures { result ≡ upce_of x }
{
    let position = at(x);
    let data = span(x);
    let orientation = orientation_of(x.rotation);
    let barcode = BarcodeUcpe {
        orientation,
        height: x.height,
        line: x.line == 1,
    };
    BarcodeUcpeWithData {
        barcode,
        width: x.width,
        position,
        data,
    }
}

// The element of the struct's kind, by the fields that this has; UPC-E for any that is none.
pub fn element_of(x: Element) -> LabelElement
    ensures { result ≡ element_of x }
{
    let kind = x.kind;
    match kind {
        1 => LabelElement::Text(text_of(x)),
        2 => LabelElement::GraphicBox(box_of(x)),
        3 => LabelElement::DiagonalLine(diagonal_of(x)),
        4 => LabelElement::GraphicField(graphic_of(x)),
        5 => LabelElement::Barcode128(code_128_of(x)),
        6 => LabelElement::BarcodeEan13(ean13_of(x)),
        7 => LabelElement::BarcodeEan8(ean8_of(x)),
        8 => LabelElement::BarcodeUca(upca_of(x)),
        9 => LabelElement::Barcode2of5(interleaved_of(x)),
        10 => LabelElement::Barcode39(code_39_of(x)),
        11 => LabelElement::BarcodePdf417(pdf417_of(x)),
        12 => LabelElement::BarcodeAztec(aztec_of(x)),
        13 => LabelElement::BarcodeDatamatrix(datamatrix_of(x)),
        14 => LabelElement::BarcodeQr(qr_of(x)),
        15 => LabelElement::Maxicode(maxicode_of(x)),
        _ => LabelElement::BarcodeUcpe(upce_of(x)),
    }
}

// Whether some element has this struct: then `element_of` gives it.
pub fn is_element(x: Element) -> bool
    ensures { result ≡ standing x }
{
    same(struct_of(element_of(x)), x)
}
