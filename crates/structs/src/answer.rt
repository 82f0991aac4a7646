// The flat element, the parts of one that several kinds have, and the flat answer that carries it.
ghost use Rattle.std.specs.Prelude.{◌≡◌};
ghost use Rattle.structs.specs.Flat.{placed, barred, nothing, event, printed, answered};

use elements::walk_state::WalkState;
use elements::{DataSpan, FieldOrientation, LabelPosition, PrintCounts};
use frame_bytes::fields::{flag, rotation};

// What a command draws. A field that is none of its kind's is 0.
#[repr(C)]
#[derive(Clone, Copy)]
pub struct Element {
    // 1 to 16, its frame's kind.
    pub kind: u8,
    // Quarter turns, 0 to 3.
    pub rotation: u8,
    // Flag: a text is reversed.
    pub reverse: u8,
    // Of a box: 0 black, 1 white, 2 exclusive-OR.
    pub colour: u8,
    // Of a diagonal: 1 where x2 - x1 and y2 - y1 have one sign or are both zero.
    pub direction: u8,
    // Flag: a bar code has its line of text.
    pub line: u8,
    // Flag: 2 of 5 or Code 39 has its check digit.
    pub check: u8,
    // Flag: PDF417 is truncated.
    pub truncate: u8,
    // QR's letter.
    pub level: u8,
    pub x: i32,
    pub y: i32,
    // Of a bar code the narrow bar's, of PDF417 the module's.
    pub width: i32,
    // Of a bar code its bars', of PDF417 a row's, of Data Matrix the module's.
    pub height: i32,
    pub thickness: i32,
    pub row_bytes: i32,
    pub security: i32,
    pub columns: i32,
    pub rows: i32,
    pub magnification: i32,
    pub size: i32,
    // Of Code 128 its mode flag, of MaxiCode its mode.
    pub mode: i32,
    // Of a text: the font's number and the multipliers.
    pub font: i32,
    pub horizontal: i32,
    pub vertical: i32,
    // Of 2 of 5 and Code 39: the wide bar.
    pub wide: i32,
    pub text_height: f64,
    pub text_width: f64,
    // Wide to narrow.
    pub ratio: f64,
    // Where the data stands in the input, and how many bytes it has before decoding.
    pub data_start: usize,
    pub data_len: usize,
}

// What a step answers. A field that is none of its kind's is 0; of a print, a clear, the end and a refusal so is every
// field of the element.
#[repr(C)]
#[derive(Clone, Copy)]
pub struct FlatAnswer {
    // The element's; or 0 a print, 17 a clear, 18 the end, 255 a refusal.
    pub kind: u8,
    // A refusal's.
    pub number: u8,
    // A refusal's.
    pub place: usize,
    // A print's: how many elements its label has.
    pub count: usize,
    // A print's: label sets, and copies of each label.
    pub sets: i32,
    pub copies: i32,
    // The state for the next step; after a refusal the one that was given.
    pub next: WalkState,
    pub element: Element,
}

// Kind, position and data, without the fields of the kind.
pub(crate) fn placed(kind: u8, p: LabelPosition, d: DataSpan) -> Element
    ensures { result ≡ placed kind p d }
{
    Element {
        kind,
        rotation: 0,
        reverse: 0,
        colour: 0,
        direction: 0,
        line: 0,
        check: 0,
        truncate: 0,
        level: 0,
        x: p.x,
        y: p.y,
        width: 0,
        height: 0,
        thickness: 0,
        row_bytes: 0,
        security: 0,
        columns: 0,
        rows: 0,
        magnification: 0,
        size: 0,
        mode: 0,
        font: 0,
        horizontal: 0,
        vertical: 0,
        wide: 0,
        text_height: 0.0,
        text_width: 0.0,
        ratio: 0.0,
        data_start: d.start,
        data_len: d.len,
    }
}

// A bar code with bars, without its sizes.
pub(crate) fn barred(
    kind: u8,
    p: LabelPosition,
    o: FieldOrientation,
    line: bool,
    d: DataSpan,
) -> Element
    ensures { result ≡ barred kind p o line d }
{
    let mut a = placed(kind, p, d);
    a.rotation = rotation(o);
    a.line = flag(line);
    a
}

// No element.
fn nothing() -> Element
    ensures { result ≡ nothing }
{
    placed(
        0,
        LabelPosition { x: 0, y: 0 },
        DataSpan { start: 0, len: 0 },
    )
}

// A clear, the end or a refusal.
pub(crate) fn event(kind: u8, number: u8, place: usize, next: WalkState) -> FlatAnswer
    ensures { result ≡ event kind number place next }
{
    let reference = next.reference;
    let element = nothing();
    FlatAnswer {
        kind,
        number,
        place,
        count: 0,
        sets: 0,
        copies: 0,
        next: WalkState {
            reference,
            pending: next.pending,
            place: next.place,
        },
        element,
    }
}

// A print.
pub(crate) fn printed(count: usize, counts: PrintCounts, next: WalkState) -> FlatAnswer
    ensures { result ≡ printed count counts next }
{
    let reference = next.reference;
    let element = nothing();
    FlatAnswer {
        kind: 0,
        number: 0,
        place: 0,
        count,
        sets: counts.sets,
        copies: counts.copies,
        next: WalkState {
            reference,
            pending: next.pending,
            place: next.place,
        },
        element,
    }
}

// An element, as a step answers it.
pub(crate) fn answered(element: Element, next: WalkState) -> FlatAnswer
    ensures { result ≡ answered element next }
{
    let reference = next.reference;
    FlatAnswer {
        kind: element.kind,
        number: 0,
        place: 0,
        count: 0,
        sets: 0,
        copies: 0,
        next: WalkState {
            reference,
            pending: next.pending,
            place: next.place,
        },
        element,
    }
}
