// Whether an element's numbers are ones that a line or a block gives.
ghost use Rattle.std.specs.Prelude.{◌≡◌, ◌+◌, leb};
ghost use Rattle.spellings.specs.Writable.{line_text};
ghost use Rattle.writing_limits.specs.Fine.{sized, fine_font_at, fine_ratio_at, rows_at};
ghost use Rattle.writing_limits.specs.Fine.{fine_rows, fine_qr_at, fine_numbers, fine_bytes};
ghost use Rattle.writing_limits.specs.Fine.{between, in_range, is_number, smaller};
ghost use Rattle.writing_limits.specs.Fine.{is_line_at, sums, far_fits, cornered, sloped};
ghost use Rattle.writing_limits.specs.Fine.{fine_box_at, fine_diagonal_at, fine_bars_at};
ghost use Rattle.writing_limits.specs.Fine.{fine_size, fine_pdf, fine_matrix, fine_mode};

use barcodes::ratio::bar_ratio;
use byte_slices::scan::find;
use byte_slices::utf8::decoded_len;
use numbers::int;
use numbers::int::{Checked, checked_add, equal, min};
use structs::answer::Element;
use structs_read::same::same_bits;
use texts::fonts::{Scaled, font_info};
use writing_templates::fill::field_at;

// lo <= z, and z <= hi unless hi is 255.
fn between(z: i32, lo: u8, hi: u8) -> bool
    ensures { result ≡ between z lo hi }
{
    if z < (lo as i32) {
        return false;
    }
    if hi == 255 {
        return true;
    }
    z <= (hi as i32)
}

// The field i is one of lo to hi, or lo and more where hi is 255.
fn in_range(e: Element, i: u8, lo: u8, hi: u8) -> bool
    ensures { result ≡ in_range e i lo hi }
{
    between(field_at(e, i), lo, hi)
}

// The field i is z.
pub fn is_number(e: Element, i: u8, z: i32) -> bool
    ensures { result ≡ is_number e i z }
{
    equal(field_at(e, i), z)
}

// The smaller side.
fn smaller(e: Element) -> i32
    ensures { result ≡ smaller e }
{
    min(field_at(e, 2), field_at(e, 3))
}

// A box that `LO`, `LW` or `LE` spells.
pub fn is_line(e: Element) -> bool
    ensures { result ≡ is_line_at e }
{
    in_range(e, 2, 1, 255) & in_range(e, 3, 1, 255) & is_number(e, 4, smaller(e))
}

// a + b has 32 bits.
fn fits(a: i32, b: i32) -> bool
    ensures { result ≡ sums a b }
{
    match checked_add(a, b) {
        Checked::Fits(_) => true,
        Checked::Outside => false,
    }
}

fn far_fits(e: Element) -> bool
    ensures { result ≡ far_fits e }
{
    fits(field_at(e, 0), field_at(e, 2)) & fits(field_at(e, 1), field_at(e, 3))
}

// From corner to corner, with a thickness.
fn is_cornered(e: Element) -> bool
    ensures { result ≡ cornered e }
{
    in_range(e, 2, 0, 255) & in_range(e, 3, 0, 255) & in_range(e, 4, 1, 255) & far_fits(e)
}

// The direction is one that the sides have.
fn is_sloped(e: Element) -> bool
    ensures { result ≡ sloped e }
{
    let w = in_range(e, 2, 1, 255);
    let h = in_range(e, 3, 1, 255);
    if e.direction == 1 {
        return if w { h } else { !h };
    }
    w | h
}

fn fine_box(e: Element) -> bool
    ensures { result ≡ fine_box_at e }
{
    is_line(e) | ((e.colour == 0) & is_cornered(e))
}

fn fine_diagonal(e: Element) -> bool
    ensures { result ≡ fine_diagonal_at e }
{
    is_cornered(e) & is_sloped(e)
}

fn fine_bars(e: Element) -> bool
    ensures { result ≡ fine_bars_at e }
{
    in_range(e, 2, 1, 255) & in_range(e, 3, 1, 255)
}

// A size of Aztec.
fn fine_size(e: Element) -> bool
    ensures { result ≡ fine_size e }
{
    in_range(e, 10, 0, 99)
        | in_range(e, 10, 101, 104)
        | in_range(e, 10, 201, 232)
        | is_number(e, 10, 300)
}

fn fine_pdf417(e: Element) -> bool
    ensures { result ≡ fine_pdf e }
{
    in_range(e, 3, 4, 99)
        & (is_number(e, 6, -1) | in_range(e, 6, 1, 8))
        & in_range(e, 7, 0, 255)
        & in_range(e, 8, 0, 255)
        & in_range(e, 2, 2, 9)
}

fn fine_datamatrix(e: Element) -> bool
    ensures { result ≡ fine_matrix e }
{
    in_range(e, 3, 1, 40) & in_range(e, 7, 0, 255) & in_range(e, 8, 0, 255)
}

// A mode of MaxiCode.
fn fine_mode(e: Element) -> bool
    ensures { result ≡ fine_mode e }
{
    in_range(e, 11, 2, 4) | in_range(e, 11, 6, 6)
}

// A font's sizes are the element's.
fn is_sized(s: Scaled, e: Element) -> bool
    ensures { result ≡ sized s e }
{
    match s {
        Scaled::Font(f) => same_bits(f.height, e.text_height) & same_bits(f.width, e.text_width),
        Scaled::Outside => false,
    }
}

// The sizes of a text are those of its font and multipliers. The rotation does not change them.
fn fine_font(e: Element) -> bool
    ensures { result ≡ fine_font_at e }
{
    let s = font_info(field_at(e, 12), field_at(e, 13), field_at(e, 14), 0);
    in_range(e, 13, 1, 255) & in_range(e, 14, 1, 255) & is_sized(s, e)
}

// The ratio is that of the wide bar to the narrow one.
fn fine_ratio(e: Element) -> bool
    ensures { result ≡ fine_ratio_at e }
{
    same_bits(bar_ratio(field_at(e, 15), field_at(e, 2)), e.ratio)
}

// len bytes are whole rows.
fn is_rows(len: usize, row: i32) -> bool
    ensures { result ≡ rows_at len row }
{
    if len == 0 {
        return true;
    }
    if row < 1 {
        return false;
    }
    len % (int::bits(row) as usize) == 0
}

fn fine_rows(e: Element, len: usize) -> bool
    ensures { result ≡ fine_rows e len }
{
    in_range(e, 5, 0, 255) & is_rows(len, field_at(e, 5))
}

// The data of QR, and how large it is drawn.
fn fine_qr(e: Element, t: &[u8]) -> bool
    ensures { result ≡ fine_qr_at e t.now }
{
    in_range(e, 9, 1, 100) & (decoded_len(t, 10000) <= 9999)
}

// The numbers of an element with the data t.
pub fn fine_numbers(e: Element, t: &[u8]) -> bool
    ensures { result ≡ fine_numbers e t.now }
{
    let kind = e.kind;
    match kind {
        1 => fine_font(e),
        2 => fine_box(e),
        3 => fine_diagonal(e),
        4 => fine_rows(e, t.len()),
        9 => fine_bars(e) & fine_ratio(e),
        10 => fine_bars(e) & fine_ratio(e),
        11 => fine_pdf417(e),
        12 => in_range(e, 9, 1, 55) & fine_size(e),
        13 => fine_datamatrix(e),
        14 => fine_qr(e, t),
        15 => fine_mode(e),
        _ => fine_bars(e),
    }
}

// n bytes from start on lie within len.
pub fn holds(len: usize, start: usize, n: usize) -> bool
    ensures { result ≡ leb (start + n) len }
{
    if len < start {
        return false;
    }
    n <= len - start
}

// Data that a line can have: some bytes, no LF among them.
fn is_line_text(t: &[u8]) -> bool
    ensures { result ≡ line_text t.now }
{
    (0 < t.len()) & (find(t, 10) == t.len())
}

// The data t of an element lies in len bytes, and is such as its kind can have.
pub fn fine_bytes(len: usize, e: Element, t: &[u8]) -> bool
    ensures { result ≡ fine_bytes len e t.now }
{
    let kind = e.kind;
    match kind {
        2 => true,
        3 => true,
        4 => holds(len, e.data_start, e.data_len),
        _ => holds(len, e.data_start, e.data_len) & is_line_text(t),
    }
}
