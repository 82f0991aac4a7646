// `GW`: graphic blocks. The header is read field by field, no further than its fourth comma or an LF; the payload is
// not looked at.
ghost use Rattle.std.specs.Prelude.{◌≡◌, true, ◌+◌, ◌<◌, ◌≤◌, length};
ghost use Rattle.text.specs.Blank.{drop_while};
ghost use Rattle.graphics.specs.Block.{is_line_blank, opens_gw, in_field, measured, gw_span, graphic_at, block_reading, later_block, FieldLen, HeaderRead};

use byte_classes::class::is_ascii_blank;
use elements::refusal::Refusal;
use elements::{DataSpan, GraphicField, LabelElement, LabelPosition};
use parameters::params::{first_number, tail_two};
use parameters::position::{Placed, place};

// An ASCII blank other than LF.
pub(crate) fn is_line_blank(b: u8) -> bool
    ensures { result ≡ is_line_blank b }
{
    is_ascii_blank(b) & (b != 10)
}

// s without the ASCII blanks before its first other byte or LF.
pub fn trim_line_start(s: &[u8]) -> &[u8]
    ensures { result.now ≡ drop_while is_line_blank s.now }
{
    let mut i = 0;
    while i < s.len() && is_line_blank(s[i]) {
        i += 1;
    }
    &s[i..]
}

// What follows the leading blanks begins with `GW`.
fn gw_behind_blanks(s: &[u8]) -> bool
    ensures { result ≡ opens_gw s.now }
{
    let t = trim_line_start(s);
    if t.len() < 2 {
        return false;
    }
    (t[0] == b'G') & (t[1] == b'W')
}

// The first byte tells most lines: neither a blank nor `G`.
pub fn opens_gw(s: &[u8]) -> bool
    ensures { result ≡ opens_gw s.now }
{
    if s.len() == 0 {
        return false;
    }
    let b = s[0];
    if (0x20 < b) & (b != b'G') {
        return false;
    }
    gw_behind_blanks(s)
}

// No comma and no LF.
pub(crate) fn in_field(b: u8) -> bool
    ensures { result ≡ in_field b }
{
    (b != b',') & (b != 10)
}

// How far the first header field goes: up to a comma, an LF or the end.
pub(crate) fn header_field_len(t: &[u8]) -> usize
    ensures { FieldLen t.now result }
{
    let mut i = 0;
    while i < t.len() && in_field(t[i]) {
        i += 1;
    }
    i
}

// A header field: its number, or 0, and whether a comma closes it, before an LF or the end. Where one does: the place
// behind the comma.
#[derive(Clone, Copy)]
pub struct HeaderField {
    pub closed: bool,
    pub value: i32,
    pub next: usize,
}

// The header field at a place. Its number is read before its end is looked at: for an empty field, which hostile files
// are full of, that is fastest.
fn header_from(t: &[u8], at: usize) -> HeaderField
    requires { at ≤ length t.now }
    ensures { HeaderRead t.now at result }
{
    let n = header_field_len(&t[at..]);
    let end = at + n;
    let value = first_number(&t[at..end], 0);
    if end < t.len() {
        if t[end] == b',' {
            return HeaderField {
                closed: true,
                value,
                next: end + 1,
            };
        }
    }
    HeaderField {
        closed: false,
        value,
        next: end,
    }
}

// x, y, width in bytes, lines.
#[derive(Clone, Copy)]
pub struct GwNumbers {
    pub at: LabelPosition,
    pub width_bytes: i32,
    pub lines: i32,
}

#[derive(Clone, Copy)]
pub struct GwSpan {
    pub at: LabelPosition,
    pub width_bytes: i32,
    pub data_start: usize,
    pub data_end: usize,
}

// What stands first: no graphic, a fault of one, or a graphic.
#[derive(Clone, Copy)]
pub enum Graphic {
    NoGraphic,
    Refused(Refusal),
    Span(GwSpan),
}

// The payload stands at start and has left bytes up to the end of input: 11, then 12.
fn measure(n: GwNumbers, start: usize, left: usize) -> Graphic
    requires { start + left < 18446744073709551616 }
    ensures { result ≡ measured n start left }
{
    let width = n.width_bytes;
    let lines = n.lines;
    if width < 0 {
        return Graphic::Refused(Refusal::GraphicNegative);
    }
    if lines < 0 {
        return Graphic::Refused(Refusal::GraphicNegative);
    }
    let total = (width as usize) * (lines as usize);
    if left < total {
        return Graphic::Refused(Refusal::GraphicTruncated);
    }
    let at = n.at;
    Graphic::Span(GwSpan {
        at,
        width_bytes: width,
        data_start: start,
        data_end: start + total,
    })
}

// The graphic whose `GW` stands first in rest, or 10, 11, 12.
fn opened_gw(rest: &[u8]) -> Graphic
    requires { opens_gw rest.now ≡ true }
    ensures { result ≡ gw_span rest.now }
{
    let t = tail_two(trim_line_start(rest));
    let x = header_from(t, 0);
    if !x.closed {
        return Graphic::Refused(Refusal::GraphicFields);
    }
    let y = header_from(t, x.next);
    if !y.closed {
        return Graphic::Refused(Refusal::GraphicFields);
    }
    let w = header_from(t, y.next);
    if !w.closed {
        return Graphic::Refused(Refusal::GraphicFields);
    }
    let l = header_from(t, w.next);
    if !l.closed {
        return Graphic::Refused(Refusal::GraphicFields);
    }
    let left = t.len() - l.next;
    measure(
        GwNumbers {
            at: LabelPosition {
                x: x.value,
                y: y.value,
            },
            width_bytes: w.value,
            lines: l.value,
        },
        rest.len() - left,
        left,
    )
}

// The graphic that stands first in rest, which goes to the end of input; places are counted from rest's first byte.
// Small, so that it is inlined: it is asked before every line.
pub fn gw_span(rest: &[u8]) -> Graphic
    ensures { result ≡ gw_span rest.now }
{
    if !opens_gw(rest) {
        return Graphic::NoGraphic;
    }
    opened_gw(rest)
}

// What a block says: its bytes with its element.
#[derive(Clone, Copy)]
pub enum Block {
    NoBlock,
    Refused(Refusal),
    Element(LabelElement, usize),
}

// The block that stands first in rest, itself at the place `at`, at a reference: 10, 11, 12, then 13.
pub fn read_block(rest: &[u8], at: usize, reference: LabelPosition) -> Block
    requires { at + length rest.now < 18446744073709551616 }
    ensures { result ≡ later_block at (block_reading (gw_span rest.now) reference) }
{
    if !opens_gw(rest) {
        return Block::NoBlock;
    }
    match gw_span(rest) {
        Graphic::NoGraphic => Block::NoBlock,
        Graphic::Refused(n) => Block::Refused(n),
        Graphic::Span(g) => graphic_at(g, at, reference),
    }
}

// The graphic of a block at the place `at`, at a reference, or 13.
fn graphic_at(g: GwSpan, at: usize, reference: LabelPosition) -> Block
    requires { (g.data_start ≤ g.data_end) × (at + g.data_end < 18446744073709551616) }
    ensures { result ≡ later_block at (graphic_at g reference) }
{
    let p = g.at;
    let Placed::At(position) = place(p.x, p.y, reference) else {
        return Block::Refused(Refusal::OutOfRange);
    };
    Block::Element(
        LabelElement::GraphicField(GraphicField {
            position,
            row_bytes: g.width_bytes,
            data: DataSpan {
                start: at + g.data_start,
                len: g.data_end - g.data_start,
            },
        }),
        g.data_end,
    )
}
