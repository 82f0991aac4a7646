// The one place that takes elements apart for what goes outward.
ghost use Rattle.std.specs.Prelude.{◌≡◌};
ghost use Rattle.elements.specs.declared.plain.Data.TheVariants as of;
ghost use Rattle.elements.specs.Plain.{plain, plain_of};

use crate::{
    BarcodeAztec, BarcodeDatamatrix, BarcodeMode, BarcodePdf417, BarcodeQr, DataSpan,
    FieldOrientation, FontInfo, FontScale, LabelElement, LabelPosition, LineColor, Maxicode,
    QrErrorCorrectionLevel,
};

// Width, height and thickness of a box or a diagonal.
#[derive(Clone, Copy)]
pub struct Extent {
    pub width: i32,
    pub height: i32,
    pub thickness: i32,
}

// Rotation, narrow bar, height and line of a bar code with bars.
#[derive(Clone, Copy)]
pub struct Bars {
    pub orientation: FieldOrientation,
    pub narrow: i32,
    pub height: i32,
    pub line: bool,
}

// What a frame has between the position and the data, a case for each form in which 01 lists it.
#[derive(Clone, Copy)]
pub enum Fields {
    // The reverse flag, the font's number and multipliers, and the font.
    Text(bool, FontScale, FontInfo),
    Box(Extent, LineColor),
    // With the direction flag.
    Diagonal(Extent, bool),
    // Row bytes.
    Graphic(i32),
    Code128(Bars, BarcodeMode),
    Bars(Bars),
    // With the check flag, the wide bar and the ratio.
    Ratio(Bars, bool, i32, f64),
    Pdf417(BarcodePdf417),
    Aztec(BarcodeAztec),
    Datamatrix(BarcodeDatamatrix),
    Qr(BarcodeQr, QrErrorCorrectionLevel),
    Maxicode(Maxicode),
}

// The data of an element: none, a payload with its total before it, or bytes that are decoded.
#[derive(Clone, Copy)]
pub enum Data {
    NoData,
    Payload(DataSpan),
    Decoded(DataSpan),
}

// An element in its plain form: the kind of its frame, and what every frame has.
#[derive(Clone, Copy)]
pub struct Plain {
    pub kind: u8,
    pub position: LabelPosition,
    pub data: Data,
    pub fields: Fields,
}

// With data that is decoded.
fn decoded(kind: u8, position: LabelPosition, span: DataSpan, fields: Fields) -> Plain
    ensures { result ≡ plain kind position (of.Decoded span) fields }
{
    Plain {
        kind,
        position,
        data: Data::Decoded(span),
        fields,
    }
}

// With none.
fn drawn(kind: u8, position: LabelPosition, fields: Fields) -> Plain
    ensures { result ≡ plain kind position of.NoData fields }
{
    Plain {
        kind,
        position,
        data: Data::NoData,
        fields,
    }
}

// Kind, position, data and fields of an element.
pub fn plain_of(e: LabelElement) -> Plain
    ensures { result ≡ plain_of e }
{
    match e {
        LabelElement::Text(f) => {
            let position = f.position;
            let scale = f.scale;
            let font = f.font;
            let span = f.text;
            decoded(
                0x01,
                position,
                span,
                Fields::Text(f.reverse_print, scale, font),
            )
        }
        LabelElement::GraphicBox(f) => {
            let position = f.position;
            let color = f.line_color;
            let extent = Extent {
                width: f.width,
                height: f.height,
                thickness: f.border_thickness,
            };
            drawn(0x02, position, Fields::Box(extent, color))
        }
        LabelElement::DiagonalLine(f) => {
            let position = f.position;
            let extent = Extent {
                width: f.width,
                height: f.height,
                thickness: f.border_thickness,
            };
            drawn(0x03, position, Fields::Diagonal(extent, f.top_to_bottom))
        }
        LabelElement::GraphicField(f) => {
            let position = f.position;
            let span = f.data;
            Plain {
                kind: 0x04,
                position,
                data: Data::Payload(span),
                fields: Fields::Graphic(f.row_bytes),
            }
        }
        LabelElement::Barcode128(f) => {
            let position = f.position;
            let span = f.data;
            let b = f.barcode;
            let orientation = b.orientation;
            let mode = b.mode;
            let bars = Bars {
                orientation,
                narrow: f.width,
                height: b.height,
                line: b.line,
            };
            decoded(0x05, position, span, Fields::Code128(bars, mode))
        }
        LabelElement::BarcodeEan13(f) => {
            let position = f.position;
            let span = f.data;
            let b = f.barcode;
            let orientation = b.orientation;
            let bars = Bars {
                orientation,
                narrow: f.width,
                height: b.height,
                line: b.line,
            };
            decoded(0x06, position, span, Fields::Bars(bars))
        }
        LabelElement::BarcodeEan8(f) => {
            let position = f.position;
            let span = f.data;
            let b = f.barcode;
            let orientation = b.orientation;
            let bars = Bars {
                orientation,
                narrow: f.width,
                height: b.height,
                line: b.line,
            };
            decoded(0x07, position, span, Fields::Bars(bars))
        }
        LabelElement::BarcodeUca(f) => {
            let position = f.position;
            let span = f.data;
            let b = f.barcode;
            let orientation = b.orientation;
            let bars = Bars {
                orientation,
                narrow: f.width,
                height: b.height,
                line: b.line,
            };
            decoded(0x08, position, span, Fields::Bars(bars))
        }
        LabelElement::Barcode2of5(f) => {
            let position = f.position;
            let span = f.data;
            let b = f.barcode;
            let orientation = b.orientation;
            let bars = Bars {
                orientation,
                narrow: f.width,
                height: b.height,
                line: b.line,
            };
            decoded(
                0x09,
                position,
                span,
                Fields::Ratio(bars, b.check_digit, f.wide, f.width_ratio),
            )
        }
        LabelElement::Barcode39(f) => {
            let position = f.position;
            let span = f.data;
            let b = f.barcode;
            let orientation = b.orientation;
            let bars = Bars {
                orientation,
                narrow: f.width,
                height: b.height,
                line: b.line,
            };
            decoded(
                0x0a,
                position,
                span,
                Fields::Ratio(bars, b.check_digit, f.wide, f.width_ratio),
            )
        }
        LabelElement::BarcodePdf417(f) => {
            let position = f.position;
            let span = f.data;
            let b = f.barcode;
            decoded(0x0b, position, span, Fields::Pdf417(b))
        }
        LabelElement::BarcodeAztec(f) => {
            let position = f.position;
            let span = f.data;
            let b = f.barcode;
            decoded(0x0c, position, span, Fields::Aztec(b))
        }
        LabelElement::BarcodeDatamatrix(f) => {
            let position = f.position;
            let span = f.data;
            let b = f.barcode;
            decoded(0x0d, position, span, Fields::Datamatrix(b))
        }
        LabelElement::BarcodeQr(f) => {
            let position = f.position;
            let span = f.data;
            let b = f.barcode;
            let level = f.error_correction;
            decoded(0x0e, position, span, Fields::Qr(b, level))
        }
        LabelElement::Maxicode(f) => {
            let position = f.position;
            let span = f.data;
            let c = f.code;
            decoded(0x0f, position, span, Fields::Maxicode(c))
        }
        LabelElement::BarcodeUcpe(f) => {
            let position = f.position;
            let span = f.data;
            let b = f.barcode;
            let orientation = b.orientation;
            let bars = Bars {
                orientation,
                narrow: f.width,
                height: b.height,
                line: b.line,
            };
            decoded(0x10, position, span, Fields::Bars(bars))
        }
    }
}
