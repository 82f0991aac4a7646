// The answer of a call that fills a lent buffer or list, for hosts that know numbers and structs only.
ghost use Rattle.std.specs.Prelude.{◌≡◌};
ghost use Rattle.elements.specs.Given.{given_of};
ghost use Rattle.label_index.specs.Plan.{counted_of};
ghost use Rattle.where_element.specs.Found.{given_found, spot_of};
ghost use Rattle.structs.specs.Written.{given_flat, counted_flat, spot_flat};

use elements::filled::Filled;
use label_index::labels::Indexed;
use where_element::found::Found;

// number 0: the text or the list is written, place is its length; or place is the number of an element. Else a refusal:
// its number and its place.
#[repr(C)]
#[derive(Clone, Copy)]
pub struct Written {
    pub number: u32,
    pub place: usize,
}

// What the library answered.
pub fn of_filled(a: Filled) -> Written
    ensures { given_flat result ≡ given_of a }
{
    match a {
        Filled::Bytes(n) => Written {
            number: 0,
            place: n,
        },
        Filled::Refused(k, p) => Written {
            number: k.number() as u32,
            place: p,
        },
    }
}

// What the index answered.
pub fn of_indexed(a: Indexed) -> Written
    ensures { counted_flat result ≡ counted_of a }
{
    match a {
        Indexed::Labels(n) => Written {
            number: 0,
            place: n,
        },
        Indexed::Refused(k, p) => Written {
            number: k.number() as u32,
            place: p,
        },
    }
}

// What a call over one label's elements answered.
pub fn of_found(a: Found) -> Written
    ensures { (given_flat result ≡ given_found a) × (spot_flat result ≡ spot_of a) }
{
    match a {
        Found::Number(n) => Written {
            number: 0,
            place: n,
        },
        Found::Refused(k, p) => Written {
            number: k.number() as u32,
            place: p,
        },
    }
}
