// One element: its lengths become 300ths of an inch, all else stays.
ghost use Rattle.std.specs.Prelude.{◌≡◌};
ghost use Rattle.dots.specs.Element.{is_drawn, is_barred, pick, choose, lengths_of, lengthened, with_lengths, nothing, converted_by, converted_element, or_nothing};

use crate::length::{Converted, Dots203, Dots300, to_300};
use structs::answer::Element;

// The fields of the flat element, at 300 dots an inch: no length in 203rds can stand in one of its lengths.
#[repr(C)]
#[derive(Clone, Copy)]
pub struct Element300 {
    // 1 to 16, its frame's kind.
    pub kind: u8,
    pub rotation: u8,
    pub reverse: u8,
    pub colour: u8,
    pub direction: u8,
    pub line: u8,
    pub check: u8,
    pub truncate: u8,
    pub level: u8,
    pub x: Dots300,
    pub y: Dots300,
    // Of a bar code the narrow bar's, of PDF417 the module's, in the new printer's dots: as many as in the old one's.
    pub width: Dots300,
    // Of a bar code its bars', of PDF417 a row's, of Data Matrix the module's: of these two as many dots as before.
    pub height: Dots300,
    pub thickness: Dots300,
    pub row_bytes: i32,
    pub security: i32,
    pub columns: i32,
    pub rows: i32,
    pub magnification: i32,
    pub size: i32,
    pub mode: i32,
    pub font: i32,
    pub horizontal: i32,
    pub vertical: i32,
    pub wide: i32,
    pub text_height: f64,
    pub text_width: f64,
    pub ratio: f64,
    pub data_start: usize,
    pub data_len: usize,
}

// The lengths of an element at 203 dots an inch. Those that its kind has not are 0.
#[derive(Clone, Copy)]
pub struct Lengths203 {
    pub x: Dots203,
    pub y: Dots203,
    pub width: Dots203,
    pub height: Dots203,
    pub thickness: Dots203,
}

// The same at 300.
#[derive(Clone, Copy)]
pub struct Lengths300 {
    pub x: Dots300,
    pub y: Dots300,
    pub width: Dots300,
    pub height: Dots300,
    pub thickness: Dots300,
}

// All of them, or which are outside 32 bits: the position (13) before another (19).
#[derive(Clone, Copy)]
pub enum Lengthened {
    Lengths(Lengths300),
    Position,
    Size,
}

#[derive(Clone, Copy)]
pub enum ConvertedElement {
    Element(Element300),
    Position,
    Size,
}

// A box or a diagonal.
fn is_drawn(kind: u8) -> bool
    ensures { result ≡ is_drawn kind }
{
    (kind == 2) | (kind == 3)
}

// A bar code with bars.
fn is_barred(kind: u8) -> bool
    ensures { result ≡ is_barred kind }
{
    ((5 <= kind) & (kind <= 10)) | (kind == 16)
}

// d where it is a length, else none.
fn pick(is: bool, d: Dots203) -> Dots203
    ensures { result ≡ pick is d.0 }
{
    if is {
        return d;
    }
    Dots203(0)
}

// The lengths of an element that are converted.
fn lengths(e: Element) -> Lengths203
    ensures { result ≡ lengths_of e }
{
    let drawn = is_drawn(e.kind);
    let tall = drawn | is_barred(e.kind);
    let width = pick(drawn, Dots203(e.width));
    let height = pick(tall, Dots203(e.height));
    let thickness = pick(drawn, Dots203(e.thickness));
    Lengths203 {
        x: Dots203(e.x),
        y: Dots203(e.y),
        width,
        height,
        thickness,
    }
}

// Each length converted.
fn convert_lengths(l: Lengths203) -> Lengthened
    ensures { result ≡ lengthened l }
{
    let Converted::Dots(x) = to_300(l.x) else {
        return Lengthened::Position;
    };
    let Converted::Dots(y) = to_300(l.y) else {
        return Lengthened::Position;
    };
    let Converted::Dots(width) = to_300(l.width) else {
        return Lengthened::Size;
    };
    let Converted::Dots(height) = to_300(l.height) else {
        return Lengthened::Size;
    };
    let Converted::Dots(thickness) = to_300(l.thickness) else {
        return Lengthened::Size;
    };
    Lengthened::Lengths(Lengths300 {
        x,
        y,
        width,
        height,
        thickness,
    })
}

// A new length where there is one, else as many dots as before.
fn choose(is: bool, d: Dots300, same: Dots300) -> Dots300
    ensures { result ≡ choose is d same.0 }
{
    if is {
        return d;
    }
    same
}

// The element with these lengths in their place.
fn with_lengths(e: Element, l: Lengths300) -> Element300
    ensures { result ≡ with_lengths e l }
{
    let drawn = is_drawn(e.kind);
    let tall = drawn | is_barred(e.kind);
    let x = l.x;
    let y = l.y;
    let width = choose(drawn, l.width, Dots300(e.width));
    let height = choose(tall, l.height, Dots300(e.height));
    let thickness = choose(drawn, l.thickness, Dots300(e.thickness));
    Element300 {
        kind: e.kind,
        rotation: e.rotation,
        reverse: e.reverse,
        colour: e.colour,
        direction: e.direction,
        line: e.line,
        check: e.check,
        truncate: e.truncate,
        level: e.level,
        x,
        y,
        width,
        height,
        thickness,
        row_bytes: e.row_bytes,
        security: e.security,
        columns: e.columns,
        rows: e.rows,
        magnification: e.magnification,
        size: e.size,
        mode: e.mode,
        font: e.font,
        horizontal: e.horizontal,
        vertical: e.vertical,
        wide: e.wide,
        text_height: e.text_height,
        text_width: e.text_width,
        ratio: e.ratio,
        data_start: e.data_start,
        data_len: e.data_len,
    }
}

// The element with its converted lengths, or which is outside 32 bits.
fn converted(l: Lengthened, e: Element) -> ConvertedElement
    ensures { result ≡ converted_by l e }
{
    match l {
        Lengthened::Lengths(m) => ConvertedElement::Element(with_lengths(e, m)),
        Lengthened::Position => ConvertedElement::Position,
        Lengthened::Size => ConvertedElement::Size,
    }
}

// One element.
pub fn convert_element(e: Element) -> ConvertedElement
    ensures { result ≡ converted_element e }
{
    converted(convert_lengths(lengths(e)), e)
}

// No element: 0 in every field.
pub fn nothing() -> Element300
    ensures { result ≡ nothing }
{
    Element300 {
        kind: 0,
        rotation: 0,
        reverse: 0,
        colour: 0,
        direction: 0,
        line: 0,
        check: 0,
        truncate: 0,
        level: 0,
        x: Dots300(0),
        y: Dots300(0),
        width: Dots300(0),
        height: Dots300(0),
        thickness: Dots300(0),
        row_bytes: 0,
        security: 0,
        columns: 0,
        rows: 0,
        magnification: 0,
        size: 0,
        mode: 0,
        font: 0,
        horizontal: 0,
        vertical: 0,
        wide: 0,
        text_height: 0.0,
        text_width: 0.0,
        ratio: 0.0,
        data_start: 0,
        data_len: 0,
    }
}

// One element where it is known that every length fits.
pub fn element_300(e: Element) -> Element300
    ensures { result ≡ or_nothing (converted_element e) }
{
    match convert_element(e) {
        ConvertedElement::Element(x) => x,
        ConvertedElement::Position => nothing(),
        ConvertedElement::Size => nothing(),
    }
}
