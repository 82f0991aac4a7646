// An element as a flat one, kind by kind.
ghost use Rattle.std.specs.Prelude.{◌≡◌};
ghost use Rattle.elements.specs.declared.LabelElement.TheVariants as element;
ghost use Rattle.structs.specs.Flat.{flat_element};

use crate::answer::{Element, barred, placed};
use elements::{
    Barcode2of5WithData, Barcode39WithData, Barcode128WithData, BarcodeAztecWithData,
    BarcodeDatamatrixWithData, BarcodeEan8WithData, BarcodeEan13WithData, BarcodePdf417WithData,
    BarcodeQrWithData, BarcodeUcaWithData, BarcodeUcpeWithData, DataSpan, GraphicBox,
    GraphicDiagonalLine, GraphicField, LabelElement, MaxicodeWithData, TextField,
};
use frame_bytes::fields::{colour, flag, level, mode, rotation};

// Kind 01.
fn text_field(e: TextField) -> Element
    ensures { result ≡ flat_element (element.Text e) }
{
    let position = e.position;
    let scale = e.scale;
    let font = e.font;
    let turned = font.rotation;
    let data = e.text;
    let mut a = placed(1, position, data);
    a.rotation = rotation(turned);
    a.reverse = flag(e.reverse_print);
    a.font = scale.font;
    a.horizontal = scale.horizontal;
    a.vertical = scale.vertical;
    a.text_height = font.height;
    a.text_width = font.width;
    a
}

// Kind 02.
fn graphic_box(e: GraphicBox) -> Element
    ensures { result ≡ flat_element (element.GraphicBox e) }
{
    let position = e.position;
    let by = e.line_color;
    let data = DataSpan { start: 0, len: 0 };
    let mut a = placed(2, position, data);
    a.colour = colour(by);
    a.width = e.width;
    a.height = e.height;
    a.thickness = e.border_thickness;
    a
}

// Kind 03.
fn diagonal(e: GraphicDiagonalLine) -> Element
    ensures { result ≡ flat_element (element.DiagonalLine e) }
{
    let position = e.position;
    let data = DataSpan { start: 0, len: 0 };
    let mut a = placed(3, position, data);
    a.direction = flag(e.top_to_bottom);
    a.width = e.width;
    a.height = e.height;
    a.thickness = e.border_thickness;
    a
}

// Kind 04.
fn graphic_field(e: GraphicField) -> Element
    ensures { result ≡ flat_element (element.GraphicField e) }
{
    let position = e.position;
    let data = e.data;
    let mut a = placed(4, position, data);
    a.row_bytes = e.row_bytes;
    a
}

// Kind 05.
fn code_128(e: Barcode128WithData) -> Element
    ensures { result ≡ flat_element (element.Barcode128 e) }
{
    let b = e.barcode;
    let turned = b.orientation;
    let by = b.mode;
    let position = e.position;
    let data = e.data;
    let mut a = barred(5, position, turned, b.line, data);
    a.mode = mode(by) as i32;
    a.width = e.width;
    a.height = b.height;
    a
}

// Kind 06.
fn ean13(e: BarcodeEan13WithData) -> Element
    ensures { result ≡ flat_element (element.BarcodeEan13 e) }
{
    let b = e.barcode;
    let turned = b.orientation;
    let position = e.position;
    let data = e.data;
    let mut a = barred(6, position, turned, b.line, data);
    a.width = e.width;
    a.height = b.height;
    a
}

// Kind 07.
fn ean8(e: BarcodeEan8WithData) -> Element
    ensures { result ≡ flat_element (element.BarcodeEan8 e) }
{
    let b = e.barcode;
    let turned = b.orientation;
    let position = e.position;
    let data = e.data;
    let mut a = barred(7, position, turned, b.line, data);
    a.width = e.width;
    a.height = b.height;
    a
}

// Kind 08.
fn upca(e: BarcodeUcaWithData) -> Element
    ensures { result ≡ flat_element (element.BarcodeUca e) }
{
    let b = e.barcode;
    let turned = b.orientation;
    let position = e.position;
    let data = e.data;
    let mut a = barred(8, position, turned, b.line, data);
    a.width = e.width;
    a.height = b.height;
    a
}

// Kind 09.
fn interleaved(e: Barcode2of5WithData) -> Element
    ensures { result ≡ flat_element (element.Barcode2of5 e) }
{
    let b = e.barcode;
    let turned = b.orientation;
    let position = e.position;
    let data = e.data;
    let mut a = barred(9, position, turned, b.line, data);
    a.check = flag(b.check_digit);
    a.width = e.width;
    a.height = b.height;
    a.wide = e.wide;
    a.ratio = e.width_ratio;
    a
}

// Kind 0a.
fn code_39(e: Barcode39WithData) -> Element
    ensures { result ≡ flat_element (element.Barcode39 e) }
{
    let b = e.barcode;
    let turned = b.orientation;
    let position = e.position;
    let data = e.data;
    let mut a = barred(10, position, turned, b.line, data);
    a.check = flag(b.check_digit);
    a.width = e.width;
    a.height = b.height;
    a.wide = e.wide;
    a.ratio = e.width_ratio;
    a
}

// Kind 0b.
fn pdf417(e: BarcodePdf417WithData) -> Element
    ensures { result ≡ flat_element (element.BarcodePdf417 e) }
{
    let b = e.barcode;
    let turned = b.orientation;
    let position = e.position;
    let data = e.data;
    let mut a = placed(11, position, data);
    a.rotation = rotation(turned);
    a.truncate = flag(b.truncate);
    a.height = b.row_height;
    a.security = b.security;
    a.columns = b.columns;
    a.rows = b.rows;
    a.width = b.module_width;
    a
}

// Kind 0c.
fn aztec(e: BarcodeAztecWithData) -> Element
    ensures { result ≡ flat_element (element.BarcodeAztec e) }
{
    let b = e.barcode;
    let position = e.position;
    let data = e.data;
    let mut a = placed(12, position, data);
    a.magnification = b.magnification;
    a.size = b.size;
    a
}

// Kind 0d.
fn datamatrix(e: BarcodeDatamatrixWithData) -> Element
    ensures { result ≡ flat_element (element.BarcodeDatamatrix e) }
{
    let matrix = e.barcode;
    let position = e.position;
    let data = e.data;
    let mut a = placed(13, position, data);
    a.height = matrix.height;
    a.columns = matrix.columns;
    a.rows = matrix.rows;
    a
}

// Kind 0e.
fn qr(e: BarcodeQrWithData) -> Element
    ensures { result ≡ flat_element (element.BarcodeQr e) }
{
    let b = e.barcode;
    let by = e.error_correction;
    let position = e.position;
    let data = e.data;
    let mut a = placed(14, position, data);
    a.level = level(by);
    a.magnification = b.magnification;
    a
}

// Kind 0f.
fn maxicode(e: MaxicodeWithData) -> Element
    ensures { result ≡ flat_element (element.Maxicode e) }
{
    let code = e.code;
    let position = e.position;
    let data = e.data;
    let mut a = placed(15, position, data);
    a.mode = code.mode;
    a
}

// Kind 10.
fn upce(e: BarcodeUcpeWithData) -> Element
    ensures { result ≡ flat_element (element.BarcodeUcpe e) }
{
    let b = e.barcode;
    let turned = b.orientation;
    let position = e.position;
    let data = e.data;
    let mut a = barred(16, position, turned, b.line, data);
    a.width = e.width;
    a.height = b.height;
    a
}

// An element of any kind, for `laddertick_step` alone: with one caller it is compiled into it.
pub(crate) fn flat_element(e: LabelElement) -> Element
    ensures { result ≡ flat_element e }
{
    match e {
        LabelElement::Text(x) => text_field(x),
        LabelElement::GraphicBox(x) => graphic_box(x),
        LabelElement::DiagonalLine(x) => diagonal(x),
        LabelElement::GraphicField(x) => graphic_field(x),
        LabelElement::Barcode128(x) => code_128(x),
        LabelElement::BarcodeEan13(x) => ean13(x),
        LabelElement::BarcodeEan8(x) => ean8(x),
        LabelElement::BarcodeUca(x) => upca(x),
        LabelElement::Barcode2of5(x) => interleaved(x),
        LabelElement::Barcode39(x) => code_39(x),
        LabelElement::BarcodePdf417(x) => pdf417(x),
        LabelElement::BarcodeAztec(x) => aztec(x),
        LabelElement::BarcodeDatamatrix(x) => datamatrix(x),
        LabelElement::BarcodeQr(x) => qr(x),
        LabelElement::Maxicode(x) => maxicode(x),
        LabelElement::BarcodeUcpe(x) => upce(x),
    }
}

// The same, for all others.
pub fn struct_of(e: LabelElement) -> Element
    ensures { result ≡ flat_element e }
{
    match e {
        LabelElement::Text(x) => text_field(x),
        LabelElement::GraphicBox(x) => graphic_box(x),
        LabelElement::DiagonalLine(x) => diagonal(x),
        LabelElement::GraphicField(x) => graphic_field(x),
        LabelElement::Barcode128(x) => code_128(x),
        LabelElement::BarcodeEan13(x) => ean13(x),
        LabelElement::BarcodeEan8(x) => ean8(x),
        LabelElement::BarcodeUca(x) => upca(x),
        LabelElement::Barcode2of5(x) => interleaved(x),
        LabelElement::Barcode39(x) => code_39(x),
        LabelElement::BarcodePdf417(x) => pdf417(x),
        LabelElement::BarcodeAztec(x) => aztec(x),
        LabelElement::BarcodeDatamatrix(x) => datamatrix(x),
        LabelElement::BarcodeQr(x) => qr(x),
        LabelElement::Maxicode(x) => maxicode(x),
        LabelElement::BarcodeUcpe(x) => upce(x),
    }
}
