// Two structs compared, field by field.
ghost use Rattle.std.specs.Prelude.{◌≡◌};
ghost use Rattle.spellings.specs.Fonts.{same_bits};
ghost use Rattle.structs_read.specs.Unflat.{same_flags, same_places, same_counts, same_modules, same_scales, same_sizes};
ghost use Rattle.structs_read.specs.Unflat.{same_data, same_element};

use numbers::float;
use numbers::int::equal;
use structs::answer::Element;

// Two f64 have the same bits.
pub fn same_bits(a: f64, b: f64) -> bool
    ensures { result ≡ same_bits a b }
{
    float::bits(a) == float::bits(b)
}

fn same_flags(a: Element, b: Element) -> bool
    ensures { result ≡ same_flags a b }
{
    (a.kind == b.kind)
        & (a.rotation == b.rotation)
        & (a.reverse == b.reverse)
        & (a.colour == b.colour)
        & (a.direction == b.direction)
        & (a.line == b.line)
        & (a.check == b.check)
        & (a.truncate == b.truncate)
        & (a.level == b.level)
}

fn same_places(a: Element, b: Element) -> bool
    ensures { result ≡ same_places a b }
{
    equal(a.x, b.x) & equal(a.y, b.y) & equal(a.width, b.width) & equal(a.height, b.height)
}

fn same_counts(a: Element, b: Element) -> bool
    ensures { result ≡ same_counts a b }
{
    equal(a.thickness, b.thickness)
        & equal(a.row_bytes, b.row_bytes)
        & equal(a.security, b.security)
        & equal(a.columns, b.columns)
}

fn same_modules(a: Element, b: Element) -> bool
    ensures { result ≡ same_modules a b }
{
    equal(a.rows, b.rows)
        & equal(a.magnification, b.magnification)
        & equal(a.size, b.size)
        & equal(a.mode, b.mode)
}

fn same_scales(a: Element, b: Element) -> bool
    ensures { result ≡ same_scales a b }
{
    equal(a.font, b.font)
        & equal(a.horizontal, b.horizontal)
        & equal(a.vertical, b.vertical)
        & equal(a.wide, b.wide)
}

fn same_sizes(a: Element, b: Element) -> bool
    ensures { result ≡ same_sizes a b }
{
    same_bits(a.text_height, b.text_height)
        & same_bits(a.text_width, b.text_width)
        & same_bits(a.ratio, b.ratio)
}

fn same_data(a: Element, b: Element) -> bool
    ensures { result ≡ same_data a b }
{
    (a.data_start == b.data_start) & (a.data_len == b.data_len)
}

// Every field is the same.
pub fn same(a: Element, b: Element) -> bool
    ensures { result ≡ same_element a b }
{
    same_flags(a, b)
        & same_places(a, b)
        & same_counts(a, b)
        & same_modules(a, b)
        & same_scales(a, b)
        & same_sizes(a, b)
        & same_data(a, b)
}
