// Fields that frames share: flags, kind and position, and those of the bar codes with bars.
ghost use Rattle.std.specs.Prelude.{◌∷◌, [], ◌≡◌, ◌+◌, ◌≤◌, length};
ghost use Rattle.frame_bytes.specs.Frame.{flag, rotation, colour, mode, level, head, bar_bytes};
ghost use Rattle.frame_bytes.specs.Put.{PutHex};

use crate::hex::{put_byte, put_i32};
use elements::plain::Bars;
use elements::{BarcodeMode, FieldOrientation, LabelPosition, LineColor, QrErrorCorrectionLevel};

pub fn flag(b: bool) -> u8
    ensures { result ≡ flag b }
{
    u8::from(b)
}

pub fn rotation(o: FieldOrientation) -> u8
    ensures { result ≡ rotation o }
{
    o as u8
}

pub fn colour(c: LineColor) -> u8
    ensures { result ≡ colour c }
{
    c as u8
}

pub fn mode(m: BarcodeMode) -> u8
    ensures { result ≡ mode m }
{
    m as u8
}

// The level's letter.
pub fn level(l: QrErrorCorrectionLevel) -> u8
    ensures { result ≡ level l }
{
    l as u8
}

pub fn put_flag(out: &mut [u8], at: usize, b: bool) -> usize
    requires { at + 2 ≤ length out.old }
    ensures { PutHex out.new out.old at (flag b ∷ []) 1 result }
{
    put_byte(out, at, flag(b))
}

pub fn put_rotation(out: &mut [u8], at: usize, o: FieldOrientation) -> usize
    requires { at + 2 ≤ length out.old }
    ensures { PutHex out.new out.old at (rotation o ∷ []) 1 result }
{
    put_byte(out, at, rotation(o))
}

// The kind and the position, with which a frame begins.
pub fn put_head(out: &mut [u8], at: usize, kind: u8, p: LabelPosition) -> usize
    requires { at + 18 ≤ length out.old }
    ensures { PutHex out.new out.old at (head kind p) 9 result }
{
    let a = put_byte(out, at, kind);
    let b = put_i32(out, a, p.x);
    put_i32(out, b, p.y)
}

// Rotation, narrow bar, height and line.
pub fn put_bars(out: &mut [u8], at: usize, b: Bars) -> usize
    requires { at + 20 ≤ length out.old }
    ensures { PutHex out.new out.old at (bar_bytes b) 10 result }
{
    let a = put_rotation(out, at, b.orientation);
    let c = put_i32(out, a, b.narrow);
    let d = put_i32(out, c, b.height);
    put_flag(out, d, b.line)
}
