// The records of src/elements that frames carry, by value, under the names of the Rust; refusals; a walk's state, and
// the answer of a call that fills a buffer.
// The records stand here and not in a module each: every state of every proof spells out the paths of its types, and
// check times follow their length.
#![tactic(auto)]

pub mod filled;
pub mod plain;
pub mod refusal;
pub mod walk_state;

// A position in dots, or a reference point.
#[repr(C)]
#[derive(Clone, Copy)]
pub struct LabelPosition {
    pub x: i32,
    pub y: i32,
}

// What a print line says: label sets, and copies of each label.
#[derive(Clone, Copy)]
pub struct PrintCounts {
    pub sets: i32,
    pub copies: i32,
}

// Data of an element: where it stands, and how many bytes it has before decoding.
#[derive(Clone, Copy)]
pub struct DataSpan {
    pub start: usize,
    pub len: usize,
}

// Quarter turns.
#[derive(Clone, Copy)]
pub enum FieldOrientation {
    Normal = 0,
    Rotated90 = 1,
    Rotated180 = 2,
    Rotated270 = 3,
}

// The file is not among the Rust's that came with the scope; its use shows the first two. Xor is ours, for `LE`.
#[derive(Clone, Copy)]
pub enum LineColor {
    Black = 0,
    White = 1,
    Xor = 2,
}

// A font's number and the two multipliers, as read: after defaults and least values. Any number is kept.
#[derive(Clone, Copy)]
pub struct FontScale {
    pub font: i32,
    pub horizontal: i32,
    pub vertical: i32,
}

// The size of a text, as two floats, and its rotation.
#[derive(Clone, Copy)]
pub struct FontInfo {
    pub height: f64,
    pub width: f64,
    pub rotation: FieldOrientation,
}

// A text (frame 01). Its height and width are those that scale gives.
#[derive(Clone, Copy)]
pub struct TextField {
    pub position: LabelPosition,
    pub reverse_print: bool,
    pub scale: FontScale,
    pub font: FontInfo,
    pub text: DataSpan,
}

// A box, or a line that is one (frame 02).
#[derive(Clone, Copy)]
pub struct GraphicBox {
    pub position: LabelPosition,
    pub width: i32,
    pub height: i32,
    pub border_thickness: i32,
    pub line_color: LineColor,
}

// A diagonal (frame 03). It runs from top left to bottom right where top_to_bottom.
#[derive(Clone, Copy)]
pub struct GraphicDiagonalLine {
    pub position: LabelPosition,
    pub width: i32,
    pub height: i32,
    pub border_thickness: i32,
    pub top_to_bottom: bool,
}

// A graphic (frame 04). Its total is the length of its data, which is not decoded.
#[derive(Clone, Copy)]
pub struct GraphicField {
    pub position: LabelPosition,
    pub row_bytes: i32,
    pub data: DataSpan,
}

// Code 128 (frame 05), with its mode flag.
#[derive(Clone, Copy)]
pub enum BarcodeMode {
    Ucc = 1,
    Automatic = 2,
    Ean = 3,
}

#[derive(Clone, Copy)]
pub struct Barcode128 {
    pub orientation: FieldOrientation,
    pub height: i32,
    pub line: bool,
    pub mode: BarcodeMode,
}

#[derive(Clone, Copy)]
pub struct Barcode128WithData {
    pub barcode: Barcode128,
    pub width: i32,
    pub position: LabelPosition,
    pub data: DataSpan,
}

// EAN-13 (frame 06).
#[derive(Clone, Copy)]
pub struct BarcodeEan13 {
    pub orientation: FieldOrientation,
    pub height: i32,
    pub line: bool,
}

#[derive(Clone, Copy)]
pub struct BarcodeEan13WithData {
    pub barcode: BarcodeEan13,
    pub width: i32,
    pub position: LabelPosition,
    pub data: DataSpan,
}

// EAN-8 (frame 07).
#[derive(Clone, Copy)]
pub struct BarcodeEan8 {
    pub orientation: FieldOrientation,
    pub height: i32,
    pub line: bool,
}

#[derive(Clone, Copy)]
pub struct BarcodeEan8WithData {
    pub barcode: BarcodeEan8,
    pub width: i32,
    pub position: LabelPosition,
    pub data: DataSpan,
}

// UPC-A (frame 08).
#[derive(Clone, Copy)]
pub struct BarcodeUca {
    pub orientation: FieldOrientation,
    pub height: i32,
    pub line: bool,
}

#[derive(Clone, Copy)]
pub struct BarcodeUcaWithData {
    pub barcode: BarcodeUca,
    pub width: i32,
    pub position: LabelPosition,
    pub data: DataSpan,
}

// 2 of 5 (frame 09). wide is the wide bar as read, 0 and below too; width_ratio is wide to narrow, at least 2.0.
#[derive(Clone, Copy)]
pub struct Barcode2of5 {
    pub orientation: FieldOrientation,
    pub height: i32,
    pub line: bool,
    pub check_digit: bool,
}

#[derive(Clone, Copy)]
pub struct Barcode2of5WithData {
    pub barcode: Barcode2of5,
    pub width: i32,
    pub wide: i32,
    pub width_ratio: f64,
    pub position: LabelPosition,
    pub data: DataSpan,
}

// Code 39 (frame 0a), with wide and width_ratio as 2 of 5 has them.
#[derive(Clone, Copy)]
pub struct Barcode39 {
    pub orientation: FieldOrientation,
    pub height: i32,
    pub line: bool,
    pub check_digit: bool,
}

#[derive(Clone, Copy)]
pub struct Barcode39WithData {
    pub barcode: Barcode39,
    pub width: i32,
    pub wide: i32,
    pub width_ratio: f64,
    pub position: LabelPosition,
    pub data: DataSpan,
}

// PDF417 (frame 0b).
#[derive(Clone, Copy)]
pub struct BarcodePdf417 {
    pub orientation: FieldOrientation,
    pub row_height: i32,
    pub security: i32,
    pub columns: i32,
    pub rows: i32,
    pub truncate: bool,
    pub module_width: i32,
}

impl BarcodePdf417 {
    // Chosen by the encoder.
    pub const SECURITY: i32 = -1;

    pub const SECURITY_MIN: i32 = 1;

    pub const SECURITY_MAX: i32 = 8;

    pub const MODULE_WIDTH: i32 = 6;

    pub const MODULE_WIDTH_MIN: i32 = 2;

    pub const MODULE_WIDTH_MAX: i32 = 9;

    pub const ROW_HEIGHT_MIN: i32 = 4;

    pub const ROW_HEIGHT_MAX: i32 = 99;

    // Where the file gives no row height: so many times the module width.
    pub const ROW_HEIGHT_MODULES: i32 = 4;

    pub const ROTATION: i32 = 0;
}

#[derive(Clone, Copy)]
pub struct BarcodePdf417WithData {
    pub barcode: BarcodePdf417,
    pub position: LabelPosition,
    pub data: DataSpan,
}

// Aztec (frame 0c).
#[derive(Clone, Copy)]
pub struct BarcodeAztec {
    pub magnification: i32,
    pub size: i32,
}

impl BarcodeAztec {
    pub const MAGNIFICATION: i32 = 3;

    pub const MAGNIFICATION_MIN: i32 = 1;

    pub const MAGNIFICATION_MAX: i32 = 55;
    // Chosen by the encoder.
    pub const SIZE: i32 = 0;
}

#[derive(Clone, Copy)]
pub struct BarcodeAztecWithData {
    pub barcode: BarcodeAztec,
    pub position: LabelPosition,
    pub data: DataSpan,
}

// Data Matrix (frame 0d). height is the module's.
#[derive(Clone, Copy)]
pub struct BarcodeDatamatrix {
    pub height: i32,
    pub columns: i32,
    pub rows: i32,
}

impl BarcodeDatamatrix {
    pub const HEIGHT: i32 = 5;

    pub const HEIGHT_MIN: i32 = 1;

    pub const HEIGHT_MAX: i32 = 40;
}

#[derive(Clone, Copy)]
pub struct BarcodeDatamatrixWithData {
    pub barcode: BarcodeDatamatrix,
    pub position: LabelPosition,
    pub data: DataSpan,
}

// QR (frame 0e). The levels are their letters.
#[derive(Clone, Copy)]
pub enum QrErrorCorrectionLevel {
    H = 72,
    Q = 81,
    M = 77,
    L = 76,
}

#[derive(Clone, Copy)]
pub struct BarcodeQr {
    pub magnification: i32,
}

impl BarcodeQr {
    pub const MAGNIFICATION: i32 = 3;

    pub const MAGNIFICATION_MIN: i32 = 1;

    pub const MAGNIFICATION_MAX: i32 = 100;
    // Of data, counted after decoding.
    pub const DATA_MAX: usize = 9999;
}

#[derive(Clone, Copy)]
pub struct BarcodeQrWithData {
    pub barcode: BarcodeQr,
    pub error_correction: QrErrorCorrectionLevel,
    pub position: LabelPosition,
    pub data: DataSpan,
}

// MaxiCode (frame 0f).
#[derive(Clone, Copy)]
pub struct Maxicode {
    pub mode: i32,
}

#[derive(Clone, Copy)]
pub struct MaxicodeWithData {
    pub code: Maxicode,
    pub position: LabelPosition,
    pub data: DataSpan,
}

// UPC-E (frame 10).
#[derive(Clone, Copy)]
pub struct BarcodeUcpe {
    pub orientation: FieldOrientation,
    pub height: i32,
    pub line: bool,
}

#[derive(Clone, Copy)]
pub struct BarcodeUcpeWithData {
    pub barcode: BarcodeUcpe,
    pub width: i32,
    pub position: LabelPosition,
    pub data: DataSpan,
}

// What a command draws, by value: the drawable cases of the Rust's that EPL yields.
#[derive(Clone, Copy)]
pub enum LabelElement {
    Text(TextField),
    GraphicBox(GraphicBox),
    DiagonalLine(GraphicDiagonalLine),
    GraphicField(GraphicField),
    Barcode128(Barcode128WithData),
    BarcodeEan13(BarcodeEan13WithData),
    BarcodeEan8(BarcodeEan8WithData),
    BarcodeUca(BarcodeUcaWithData),
    Barcode2of5(Barcode2of5WithData),
    Barcode39(Barcode39WithData),
    BarcodePdf417(BarcodePdf417WithData),
    BarcodeAztec(BarcodeAztecWithData),
    BarcodeDatamatrix(BarcodeDatamatrixWithData),
    BarcodeQr(BarcodeQrWithData),
    Maxicode(MaxicodeWithData),
    BarcodeUcpe(BarcodeUcpeWithData),
}
