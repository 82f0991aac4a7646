// A writer for each form of fields: what a frame has between the position and the data.
ghost use Rattle.std.specs.Prelude.{◌∷◌, [], ◌++◌, ◌≡◌, ◌+◌, ◌*◌, ◌≤◌, length};
ghost use Rattle.elements.specs.declared.plain.Fields.TheVariants as fields;
ghost use Rattle.frame_bytes.specs.Frame.{extent_bytes, row_bytes, scale_bytes, field_bytes};
ghost use Rattle.frame_bytes.specs.Put.{PutHex};

use elements::plain::{Bars, Extent, Fields};
use elements::{
    BarcodeAztec, BarcodeDatamatrix, BarcodeMode, BarcodePdf417, BarcodeQr, FontInfo, FontScale,
    QrErrorCorrectionLevel,
};
use frame_bytes::fields::{colour, flag, level, mode, put_bars, put_flag, put_rotation};
use frame_bytes::hex::{put_byte, put_f64, put_i32};

// The font's number and the multipliers.
fn put_scale(out: &mut [u8], at: usize, s: FontScale) -> usize
    requires { at + 24 ≤ length out.old }
    ensures { PutHex out.new out.old at (scale_bytes s) 12 result }
{
    let a = put_i32(out, at, s.font);
    let b = put_i32(out, a, s.horizontal);
    put_i32(out, b, s.vertical)
}

fn put_text(out: &mut [u8], at: usize, s: FontScale, f: FontInfo, reverse: bool) -> usize
    requires { at + 60 ≤ length out.old }
    ensures { PutHex out.new out.old at (field_bytes (fields.Text reverse s f)) 30 result }
{
    let turned = f.rotation;
    let a = put_rotation(out, at, turned);
    let b = put_flag(out, a, reverse);
    let c = put_scale(out, b, s);
    let d = put_f64(out, c, f.height);
    put_f64(out, d, f.width)
}

// With the colour flag or the direction flag.
fn put_drawn(out: &mut [u8], at: usize, x: Extent, mark: u8) -> usize
    requires { at + 26 ≤ length out.old }
    ensures { PutHex out.new out.old at (extent_bytes x ++ (mark ∷ [])) 13 result }
{
    let a = put_i32(out, at, x.width);
    let b = put_i32(out, a, x.height);
    let c = put_i32(out, b, x.thickness);
    put_byte(out, c, mark)
}

fn put_128(out: &mut [u8], at: usize, b: Bars, m: BarcodeMode) -> usize
    requires { at + 22 ≤ length out.old }
    ensures { PutHex out.new out.old at (field_bytes (fields.Code128 b m)) 11 result }
{
    let a = put_bars(out, at, b);
    put_byte(out, a, mode(m))
}

fn put_ratio(out: &mut [u8], at: usize, b: Bars, check: bool, wide: i32, ratio: f64) -> usize
    requires { at + 46 ≤ length out.old }
    ensures { PutHex out.new out.old at (field_bytes (fields.Ratio b check wide ratio)) 23 result }
{
    let a = put_bars(out, at, b);
    let c = put_flag(out, a, check);
    let d = put_i32(out, c, wide);
    put_f64(out, d, ratio)
}

// Row height, security, columns and rows.
fn put_rows(out: &mut [u8], at: usize, b: BarcodePdf417) -> usize
    requires { at + 32 ≤ length out.old }
    ensures { PutHex out.new out.old at (row_bytes b) 16 result }
{
    let a = put_i32(out, at, b.row_height);
    let c = put_i32(out, a, b.security);
    let d = put_i32(out, c, b.columns);
    put_i32(out, d, b.rows)
}

fn put_pdf417(out: &mut [u8], at: usize, b: BarcodePdf417) -> usize
    requires { at + 44 ≤ length out.old }
    ensures { PutHex out.new out.old at (field_bytes (fields.Pdf417 b)) 22 result }
{
    let turned = b.orientation;
    let a = put_rotation(out, at, turned);
    let c = put_rows(out, a, b);
    let d = put_flag(out, c, b.truncate);
    put_i32(out, d, b.module_width)
}

fn put_aztec(out: &mut [u8], at: usize, b: BarcodeAztec) -> usize
    requires { at + 16 ≤ length out.old }
    ensures { PutHex out.new out.old at (field_bytes (fields.Aztec b)) 8 result }
{
    let a = put_i32(out, at, b.magnification);
    put_i32(out, a, b.size)
}

fn put_datamatrix(out: &mut [u8], at: usize, b: BarcodeDatamatrix) -> usize
    requires { at + 24 ≤ length out.old }
    ensures { PutHex out.new out.old at (field_bytes (fields.Datamatrix b)) 12 result }
{
    let a = put_i32(out, at, b.height);
    let c = put_i32(out, a, b.columns);
    put_i32(out, c, b.rows)
}

fn put_qr(out: &mut [u8], at: usize, b: BarcodeQr, l: QrErrorCorrectionLevel) -> usize
    requires { at + 10 ≤ length out.old }
    ensures { PutHex out.new out.old at (field_bytes (fields.Qr b l)) 5 result }
{
    let a = put_i32(out, at, b.magnification);
    put_byte(out, a, level(l))
}

// The fields of any kind.
pub(crate) fn put_fields(out: &mut [u8], at: usize, f: Fields) -> usize
    requires { at + 2 * length (field_bytes f) ≤ length out.old }
    ensures { PutHex out.new out.old at (field_bytes f) (length (field_bytes f)) result }
{
    match f {
        Fields::Text(reverse, scale, font) => put_text(out, at, scale, font, reverse),
        Fields::Box(x, c) => put_drawn(out, at, x, colour(c)),
        Fields::Diagonal(x, d) => put_drawn(out, at, x, flag(d)),
        Fields::Graphic(n) => put_i32(out, at, n),
        Fields::Code128(b, m) => put_128(out, at, b, m),
        Fields::Bars(b) => put_bars(out, at, b),
        Fields::Ratio(b, check, wide, ratio) => put_ratio(out, at, b, check, wide, ratio),
        Fields::Pdf417(b) => put_pdf417(out, at, b),
        Fields::Aztec(b) => put_aztec(out, at, b),
        Fields::Datamatrix(b) => put_datamatrix(out, at, b),
        Fields::Qr(b, l) => put_qr(out, at, b, l),
        Fields::Maxicode(c) => put_i32(out, at, c.mode),
    }
}

// How many bytes they are.
pub(crate) fn fields_len(f: Fields) -> usize
    ensures { (result ≡ length (field_bytes f)) × (result ≤ 30) }
{
    match f {
        Fields::Text(_, _, _) => 30,
        Fields::Box(_, _) => 13,
        Fields::Diagonal(_, _) => 13,
        Fields::Graphic(_) => 4,
        Fields::Code128(_, _) => 11,
        Fields::Bars(_) => 10,
        Fields::Ratio(_, _, _, _) => 23,
        Fields::Pdf417(_) => 22,
        Fields::Aztec(_) => 8,
        Fields::Datamatrix(_) => 12,
        Fields::Qr(_, _) => 5,
        Fields::Maxicode(_) => 4,
    }
}
