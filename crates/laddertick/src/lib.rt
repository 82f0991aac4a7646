// The host's entry points: a walk a step at a time, the listing of a file, and its normalised text; the well-site
// profile's verdict on a file, and its listing under the profile; the label index, and one label opened; what lies
// where on a label; a label from 203 to 300 dots; two files joined; one element written as its command, also from a
// struct, and a label of structs, also at 300 dots; with every type that a host is handed. What is claimed of them
// stands in specs/Claims.antt.
#![tactic(auto)]

pub use dots::element::Element300;
pub use dots::length::Dots300;
pub use dots_label::label::{Label300, to_300};
pub use elements::filled::Filled;
pub use elements::refusal::Refusal;
pub use elements::walk_state::{WalkState, start};
pub use elements::{
    Barcode2of5, Barcode2of5WithData, Barcode39, Barcode39WithData, Barcode128, Barcode128WithData,
    BarcodeAztec, BarcodeAztecWithData, BarcodeDatamatrix, BarcodeDatamatrixWithData, BarcodeEan8,
    BarcodeEan8WithData, BarcodeEan13, BarcodeEan13WithData, BarcodeMode, BarcodePdf417,
    BarcodePdf417WithData, BarcodeQr, BarcodeQrWithData, BarcodeUca, BarcodeUcaWithData,
    BarcodeUcpe, BarcodeUcpeWithData, DataSpan, FieldOrientation, FontInfo, FontScale, GraphicBox,
    GraphicDiagonalLine, GraphicField, LabelElement, LabelPosition, LineColor, Maxicode,
    MaxicodeWithData, PrintCounts, QrErrorCorrectionLevel, TextField,
};
pub use file_listing::listing::list;
pub use format::normalise::normalise;
pub use joining::answer::Joined;
pub use joining::join::join;
pub use label_index::entry::LabelEntry;
pub use label_index::labels::{Indexed, index};
pub use label_opening::label::open_label;
pub use strict::check::check;
pub use strict::listing::strict_list;
pub use strict::verdict::Checked;
pub use structs::answer::Element;
pub use walk::answer::{Answer, Printed};
pub use walk::step::step;
pub use where_element::found::Found;
pub use where_element::place::Rectangle;
pub use where_label::find::{inside, touching};
pub use where_nearest::nearest::nearest;
pub use writing_element::plain::write_plain;
pub use writing_element::write::write;
pub use writing_label::at_300::write_label_300;
pub use writing_label::label::write_label;
