// Why a call is refused (01, "Who causes which number").
ghost use Rattle.std.specs.Prelude.{◌≡◌};
ghost use Rattle.elements.specs.Refusals.{number_of};

// "inputs up to 16,777,216 bytes": a longer one is InputTooLong.
pub const LONGEST: usize = 16777216;

#[derive(Clone, Copy)]
pub enum Refusal {
    // The author of the label: too few fields,
    TextFields,
    BarcodeFields,
    Barcode2dFields,
    LineFields,
    DiagonalFields,
    BoxFields,
    // a type that is not listed, QR data over its limit.
    BarcodeType,
    Barcode2dType,
    QrData,
    // The sender of the graphic: fewer than four commas, a negative size, a payload past the end.
    GraphicFields,
    GraphicNegative,
    GraphicTruncated,
    // The author of the label: a sum with the reference outside 32 bits.
    OutOfRange,
    // The host: input too long, buffer too short, a walk state with its place past the end, or its pending count above
    // its place.
    InputTooLong,
    OutputTooShort,
    StateOutside,
    // The author of the label: a difference, its absolute value or a font product outside 32 bits.
    SizeOutside,
    // The author of the label, by the well-site profile alone: a field with no value, a value outside the profile.
    // Last: with them before SizeOutside a step of the static library takes ten instructions more.
    NoValue,
    OutsideProfile,
    // The host: more labels than entries, an entry number that has no label.
    TooManyLabels,
    NoSuchLabel,
    // a rectangle whose far corner is below its near one,
    RectangleTurned,
    // an element, or a label, that no file yields,
    NotReadable,
    // a label with a graphic, which has no other resolution,
    GraphicInLabel,
    // a joined text too long to be read.
    JoinedTooLong,
}

impl Refusal {
    // 01's number.
    pub fn number(self) -> u8
        ensures { result ≡ number_of self }
    {
        match self {
            Refusal::TextFields => 1,
            Refusal::BarcodeFields => 2,
            Refusal::Barcode2dFields => 3,
            Refusal::LineFields => 4,
            Refusal::DiagonalFields => 5,
            Refusal::BoxFields => 6,
            Refusal::BarcodeType => 7,
            Refusal::Barcode2dType => 8,
            Refusal::QrData => 9,
            Refusal::GraphicFields => 10,
            Refusal::GraphicNegative => 11,
            Refusal::GraphicTruncated => 12,
            Refusal::OutOfRange => 13,
            Refusal::InputTooLong => 14,
            Refusal::OutputTooShort => 15,
            Refusal::StateOutside => 16,
            Refusal::SizeOutside => 19,
            Refusal::NoValue => 17,
            Refusal::OutsideProfile => 18,
            Refusal::TooManyLabels => 20,
            Refusal::NoSuchLabel => 21,
            Refusal::RectangleTurned => 22,
            Refusal::NotReadable => 23,
            Refusal::GraphicInLabel => 24,
            Refusal::JoinedTooLong => 25,
        }
    }
}
