// One element against a rectangle or a point.
ghost use Rattle.std.specs.Prelude.{◌≡◌};
ghost use Rattle.where_element.specs.Place.{distance};
ghost use Rattle.where_element.specs.Element.{position_of, is_in, is_on, is_on_by};

use crate::place::{Rectangle, distance, is_inside, touches};
use elements::plain::{Fields, plain_of};
use elements::{LabelElement, LabelPosition};

fn position_of(e: LabelElement) -> LabelPosition
    ensures { result ≡ position_of e }
{
    plain_of(e).position
}

// Its position lies in a rectangle.
pub fn is_in(r: Rectangle, e: LabelElement) -> bool
    ensures { result ≡ is_in r e }
{
    is_inside(position_of(e), r)
}

// The own rectangle of what is drawn at p shares a point with r; only boxes and diagonals have one.
fn is_on_by(r: Rectangle, p: LabelPosition, f: Fields) -> bool
    ensures { result ≡ is_on_by r p f }
{
    match f {
        Fields::Box(x, _) => touches(p.x, p.y, x.width, x.height, r),
        Fields::Diagonal(x, _) => touches(p.x, p.y, x.width, x.height, r),
        _ => false,
    }
}

// It is a box or a diagonal whose own rectangle shares a point with r.
pub fn is_on(r: Rectangle, e: LabelElement) -> bool
    ensures { result ≡ is_on r e }
{
    let p = plain_of(e);
    let position = p.position;
    let fields = p.fields;
    is_on_by(r, position, fields)
}

// How far its position is from a point.
pub fn distance_of(e: LabelElement, q: LabelPosition) -> u64
    ensures { result ≡ distance (position_of e) q }
{
    distance(position_of(e), q)
}
