// `LO`, `LW` and `LE`: lines as boxes; `LS`: diagonals; `X`: boxes by two corners.
ghost use Rattle.std.specs.Prelude.{◌≡◌};
ghost use Rattle.draws.specs.Draw.{line_element, line_reading, drawn_at, diagonal_of, diagonal_reading, box_of, box_reading};
ghost use Rattle.draws.specs.Axes.{corners_read, extent_of, is_same_way};

use elements::refusal::Refusal;
use elements::{GraphicBox, GraphicDiagonalLine, LabelElement, LabelPosition, LineColor};
use numbers::int::{Checked, checked_abs, checked_sub, min};
use parameters::params::{number_from, reaches, size_from};
use parameters::position::{Placed, place};
use parameters::reading::LineReading;

#[derive(Clone, Copy)]
pub struct LineFields {
    pub at: LabelPosition,
    pub width: i32,
    pub height: i32,
}

// A line at a reference, or 13.
pub(crate) fn line_element(
    f: LineFields,
    line_color: LineColor,
    reference: LabelPosition,
) -> LineReading
    ensures { result ≡ line_element f line_color reference }
{
    let at = f.at;
    let Placed::At(position) = place(at.x, at.y, reference) else {
        return LineReading::Refused(Refusal::OutOfRange);
    };
    LineReading::Element(LabelElement::GraphicBox(GraphicBox {
        position,
        width: f.width,
        height: f.height,
        border_thickness: min(f.width, f.height),
        line_color,
    }))
}

// `LO`, `LW`, `LE`: the parameters after the two letters, at a reference.
pub fn parse_epl_line(params: &[u8], line_color: LineColor, reference: LabelPosition) -> LineReading
    ensures { result ≡ line_reading params.now line_color reference }
{
    let x = number_from(params, 0, 0);
    let y = number_from(params, x.next, 0);
    let width = size_from(params, y.next, 1);
    if !reaches(width.next < params.len(), params, 4) {
        return LineReading::Refused(Refusal::LineFields);
    }
    let height = size_from(params, width.next, 1);
    let at = LabelPosition {
        x: x.value,
        y: y.value,
    };
    let fields = LineFields {
        at,
        width: width.value,
        height: height.value,
    };
    line_element(fields, line_color, reference)
}

#[derive(Clone, Copy)]
pub struct Corners {
    pub first: LabelPosition,
    pub thickness: i32,
    pub second: LabelPosition,
}

// Corners as they are read, and whether anything stands behind the fourth comma.
#[derive(Clone, Copy)]
pub struct CornersRead {
    pub corners: Corners,
    pub seen: bool,
}

// x1, y1, thickness, x2, y2.
pub(crate) fn read_corners(s: &[u8]) -> CornersRead
    ensures { result ≡ corners_read s.now }
{
    let x = number_from(s, 0, 0);
    let y = number_from(s, x.next, 0);
    let thickness = size_from(s, y.next, 1);
    let x2 = number_from(s, thickness.next, 0);
    let y2 = number_from(s, x2.next, 0);
    let first = LabelPosition {
        x: x.value,
        y: y.value,
    };
    let second = LabelPosition {
        x: x2.value,
        y: y2.value,
    };
    let corners = Corners {
        first,
        thickness: thickness.value,
        second,
    };
    CornersRead {
        corners,
        seen: x2.next < s.len(),
    }
}

// One axis of two corners: how far they are from each other, and the sign of second less first.
#[derive(Clone, Copy)]
pub struct Extent {
    pub size: i32,
    pub rises: bool,
    pub falls: bool,
}

#[derive(Clone, Copy)]
pub enum Measured {
    Of(Extent),
    Outside,
}

// The difference and its absolute value must have 32 bits.
pub(crate) fn extent_of(a: i32, b: i32) -> Measured
    ensures { result ≡ extent_of a b }
{
    let Checked::Fits(d) = checked_sub(b, a) else {
        return Measured::Outside;
    };
    let Checked::Fits(size) = checked_abs(d) else {
        return Measured::Outside;
    };
    Measured::Of(Extent {
        size,
        rises: 0 < d,
        falls: d < 0,
    })
}

// Two corners at a reference: position, sizes, and whether both axes run the same way.
#[derive(Clone, Copy)]
pub struct Drawn {
    pub position: LabelPosition,
    pub width: i32,
    pub height: i32,
    pub same_way: bool,
}

// The position comes first: Outside where it has no 32 bits, else SizeOutside where a size has none.
#[derive(Clone, Copy)]
pub enum Cornered {
    At(Drawn),
    Outside,
    SizeOutside,
}

pub(crate) fn drawn_at(c: Corners, reference: LabelPosition) -> Cornered
    ensures { result ≡ drawn_at c reference }
{
    let a = c.first;
    let b = c.second;
    let Placed::At(position) = place(min(a.x, b.x), min(a.y, b.y), reference) else {
        return Cornered::Outside;
    };
    let Measured::Of(across) = extent_of(a.x, b.x) else {
        return Cornered::SizeOutside;
    };
    let Measured::Of(down) = extent_of(a.y, b.y) else {
        return Cornered::SizeOutside;
    };
    Cornered::At(Drawn {
        position,
        width: across.size,
        height: down.size,
        same_way: same_way(across.rises, across.falls, down.rises, down.falls),
    })
}

// The differences along both axes are both positive, both negative or both zero: ax and ay say that they rise, bx and
// by that they fall.
pub(crate) fn same_way(ax: bool, bx: bool, ay: bool, by: bool) -> bool
    ensures { result ≡ is_same_way ax bx ay by }
{
    (ax & ay) | (bx & by) | (!ax & !bx & !ay & !by)
}

// `LS`: the parameters after the two letters, at a reference.
pub fn parse_epl_diagonal(params: &[u8], reference: LabelPosition) -> LineReading
    ensures { result ≡ diagonal_reading params.now reference }
{
    let read = read_corners(params);
    if !reaches(read.seen, params, 5) {
        return LineReading::Refused(Refusal::DiagonalFields);
    }
    let c = read.corners;
    diagonal(c.thickness, drawn_at(c, reference))
}

fn diagonal(thickness: i32, d: Cornered) -> LineReading
    ensures { result ≡ diagonal_of thickness d }
{
    match d {
        Cornered::At(at) => {
            let position = at.position;
            LineReading::Element(LabelElement::DiagonalLine(GraphicDiagonalLine {
                position,
                width: at.width,
                height: at.height,
                border_thickness: thickness,
                top_to_bottom: at.same_way,
            }))
        }
        Cornered::Outside => LineReading::Refused(Refusal::OutOfRange),
        Cornered::SizeOutside => LineReading::Refused(Refusal::SizeOutside),
    }
}

// `X`: the parameters after the letter, at a reference.
pub fn parse_epl_box(params: &[u8], reference: LabelPosition) -> LineReading
    ensures { result ≡ box_reading params.now reference }
{
    let read = read_corners(params);
    if !reaches(read.seen, params, 5) {
        return LineReading::Refused(Refusal::BoxFields);
    }
    let c = read.corners;
    boxed(c.thickness, drawn_at(c, reference))
}

fn boxed(thickness: i32, d: Cornered) -> LineReading
    ensures { result ≡ box_of thickness d }
{
    match d {
        Cornered::At(at) => {
            let position = at.position;
            LineReading::Element(LabelElement::GraphicBox(GraphicBox {
                position,
                width: at.width,
                height: at.height,
                border_thickness: thickness,
                line_color: LineColor::Black,
            }))
        }
        Cornered::Outside => LineReading::Refused(Refusal::OutOfRange),
        Cornered::SizeOutside => LineReading::Refused(Refusal::SizeOutside),
    }
}
