// A template filled from an element: bytes that stand for themselves, numbers, letters and the data.
ghost use Rattle.std.specs.Prelude.{◌≡◌, ◌+◌, ◌≤◌, length};
ghost use Rattle.text.specs.Wrote.{Put};
ghost use Rattle.writing_templates.specs.Fill.{field_at, far, lines, number_at, either, colour_letter, turn_letter};
ghost use Rattle.writing_templates.specs.Fill.{mode_first, mode_second};
ghost use Rattle.writing_templates.specs.Fill.{letter_at, letter_of, slot, SlotLen, fill, FillLen};

use byte_slices::put::put_bytes;
use decimals::decimal::{decimal_len, put_decimal};
use numbers::int::{Checked, bits, checked_add, equal};
use structs::answer::Element;

// The field i of an element, from 0.
pub fn field_at(e: Element, i: u8) -> i32
    ensures { result ≡ field_at e i }
{
    match i {
        0 => e.x,
        1 => e.y,
        2 => e.width,
        3 => e.height,
        4 => e.thickness,
        5 => e.row_bytes,
        6 => e.security,
        7 => e.columns,
        8 => e.rows,
        9 => e.magnification,
        10 => e.size,
        11 => e.mode,
        12 => e.font,
        13 => e.horizontal,
        14 => e.vertical,
        _ => e.wide,
    }
}

// a + b, or 0 where it has not 32 bits.
fn far(a: i32, b: i32) -> i32
    ensures { result ≡ far a b }
{
    match checked_add(a, b) {
        Checked::Fits(z) => z,
        Checked::Outside => 0,
    }
}

// The lines of a graphic: 0 where it has no row bytes, or too many lines.
fn lines_of(len: usize, row: i32) -> i32
    ensures { result ≡ lines len row }
{
    if row < 1 {
        return 0;
    }
    let n = len / (bits(row) as usize);
    if 2147483647 < n {
        return 0;
    }
    n as i32
}

// The number i of an element: a field, the far corner's x or y, or the lines.
fn number_at(e: Element, i: u8) -> i32
    ensures { result ≡ number_at e i }
{
    if i < 16 {
        return field_at(e, i);
    }
    if i == 16 {
        return far(e.x, e.width);
    }
    if i == 17 {
        return far(e.y, e.height);
    }
    lines_of(e.data_len, e.row_bytes)
}

// One byte where a flag is 1, another where it is not.
fn either(flag: u8, a: u8, b: u8) -> u8
    ensures { result ≡ either flag a b }
{
    if flag == 1 { a } else { b }
}

// The letter of `LO`, `LW`, `LE`.
fn colour_letter(c: u8) -> u8
    ensures { result ≡ colour_letter c }
{
    match c {
        0 => b'O',
        1 => b'W',
        _ => b'E',
    }
}

// The type of Code 128: `0`, `1`, `1E`.
fn mode_first(m: i32) -> u8
    ensures { result ≡ mode_first m }
{
    if equal(m, 1) { b'0' } else { b'1' }
}

fn mode_second(m: i32) -> u8
    ensures { result ≡ mode_second m }
{
    if equal(m, 3) { b'E' } else { 0 }
}

// Quarter turns.
fn turn_letter(r: u8) -> u8
    ensures { result ≡ turn_letter r }
{
    match r {
        0 => b'0',
        1 => b'1',
        2 => b'2',
        _ => b'3',
    }
}

// The letter i of an element, 0 for none: reverse, line, colour, truncate, level, the two of Code 128's type, check,
// rotation.
fn letter_at(e: Element, i: u8) -> u8
    ensures { result ≡ letter_at e i }
{
    match i {
        0 => either(e.reverse, b'R', b'N'),
        1 => either(e.line, b'B', b'N'),
        2 => colour_letter(e.colour),
        3 => either(e.truncate, b'1', b'0'),
        4 => e.level,
        5 => mode_first(e.mode),
        6 => mode_second(e.mode),
        7 => either(e.check, b'C', 0),
        _ => turn_letter(e.rotation),
    }
}

// How many bytes a letter, or a byte of a template, is: 0 is none.
fn letter_len(b: u8) -> usize
    ensures { result ≡ length (letter_of b) }
{
    if b == 0 { 0 } else { 1 }
}

fn put_letter(out: &mut [u8], at: usize, b: u8) -> usize
    requires { at + length (letter_of b) ≤ length out.old }
    ensures { Put out.new out.old at (letter_of b) result }
{
    if b == 0 {
        return at;
    }
    out[at] = b;
    at + 1
}

fn put_data(out: &mut [u8], at: usize, bytes: &[u8]) -> usize
    requires { at + length bytes.now ≤ length out.old }
    ensures { Put out.new out.old at bytes.now result }
{
    put_bytes(bytes, out, at);
    at + bytes.len()
}

// How many bytes stand where b stands in a template, len being those of the data.
fn slot_len(b: u8, e: Element, len: usize) -> usize
    ensures { SlotLen e len b result }
{
    if b < 128 {
        return letter_len(b);
    }
    if b < 148 {
        return decimal_len(number_at(e, b - 128));
    }
    if b < 160 {
        return letter_len(letter_at(e, b - 148));
    }
    len
}

fn put_slot(out: &mut [u8], at: usize, b: u8, e: Element, bytes: &[u8]) -> usize
    requires { at + length (slot e bytes.now b) ≤ length out.old }
    ensures { Put out.new out.old at (slot e bytes.now b) result }
{
    if b < 128 {
        return put_letter(out, at, b);
    }
    if b < 148 {
        return put_decimal(out, at, number_at(e, b - 128));
    }
    if b < 160 {
        return put_letter(out, at, letter_at(e, b - 148));
    }
    put_data(out, at, bytes)
}

// How many bytes a template is once it is filled.
pub(crate) fn fill_len(t: &[u8], e: Element, len: usize) -> usize
    requires { (length t.now ≤ 64) × (len ≤ 16777216) }
    ensures { FillLen e len t.now result }
{
    let mut total: usize = 0;
    let mut i: usize = 0;
    while i < t.len() {
        total += slot_len(t[i], e, len);
        i += 1;
    }
    total
}

// A template, filled.
pub(crate) fn put_fill(out: &mut [u8], at: usize, t: &[u8], e: Element, bytes: &[u8]) -> usize
    requires { at + length (fill e bytes.now t.now) ≤ length out.old }
    ensures { Put out.new out.old at (fill e bytes.now t.now) result }
{
    let mut a = at;
    let mut i: usize = 0;
    while i < t.len() {
        a = put_slot(out, a, t[i], e, bytes);
        i += 1;
    }
    a
}
