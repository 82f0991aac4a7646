// MaxiCode's automatic mode, on the decoded data: where the header of a structured message stands, and what comes
// before it.
ghost use Rattle.std.specs.Prelude.{◌≡◌};
ghost use Rattle.text.specs.Utf8.{decode};
ghost use Rattle.barcodes_2d.specs.Maxicode.{header_at, header_place, postal, auto_mode};

use byte_classes::class::is_digit;
use byte_slices::utf8::{decoded_len, part_len, shown_len};

// s starts with 5b 29 3e 1e 30 31 1d.
pub(crate) fn header_at(s: &[u8]) -> bool
    ensures { result ≡ header_at s.now }
{
    if s.len() < 7 {
        return false;
    }
    (s[0] == 0x5b)
        & (s[1] == 0x29)
        & (s[2] == 0x3e)
        & (s[3] == 0x1e)
        & (s[4] == 0x30)
        & (s[5] == 0x31)
        & (s[6] == 0x1d)
}

// The place of the first header, or the length.
pub(crate) fn header_place(s: &[u8]) -> usize
    ensures { result ≡ header_place s.now }
{
    let mut i = 0;
    while i < s.len() && !header_at(&s[i..]) {
        i += 1;
    }
    i
}

// The decoded s is digits from its byte 6 on, and has such a byte.
pub(crate) fn is_postal(s: &[u8]) -> bool
    ensures { result ≡ postal (decode s.now) }
{
    let mut skip: usize = 6;
    let mut some = false;
    let mut t = s;
    while 0 < t.len() {
        let k = part_len(t);
        let m = shown_len(&t[..k]);
        if m <= skip {
            skip -= m;
        } else {
            if !is_digit(t[0]) {
                return false;
            }
            some = true;
        }
        t = &t[k..];
    }
    some
}

// The mode for data with no usable `m`: 2 where a postal code of digits stands before the header, 3 where another does,
// else 4.
pub(crate) fn auto_maxicode_mode(data: &[u8]) -> i32
    ensures { result ≡ auto_mode (decode «data».now) }
{
    let p = header_place(data);
    if p == data.len() {
        return 4;
    }
    if decoded_len(&data[..p], 6) < 6 {
        return 4;
    }
    if is_postal(&data[..p]) { 2 } else { 3 }
}
