// Classes of bytes, from one table: letters, digits, ASCII blanks, signs, and all others. Every answer that a
// byte is of a class comes from these; quick looks before them only pass a byte on (docs/DECISIONS.md).
ghost use Rattle.std.specs.Prelude.{◌≡◌, ◌<◌};
ghost use Rattle.text.specs.Blank.{is_ascii_blank};
ghost use Rattle.text.specs.Class.{is_digit, is_letter};
ghost use Rattle.byte_classes.specs.Classes.{is_sign, is_of, row_of};

// The class of each byte, one hexadecimal digit: 1 a letter, 2 a digit, 4 an ASCII blank, 8 a sign, 0 none of these.
// Sixteen bytes to a row, the first rightmost.
const CLASSES: [u64; 16] = [
    0x0044044000000000, // 00: tab, LF, FF, CR
    0x0000000000000000, // 10
    0x0080800000000004, // 20: space, plus, minus
    0x0000002222222222, // 30: 0 to 9
    0x1111111111111110, // 40: A to O, behind @
    0x0000011111111111, // 50: P to Z
    0x1111111111111110, // 60: a to o
    0x0000011111111111, // 70: p to z
    0x0000000000000000, // 80
    0x0000000000000000, // 90
    0x0000000000000000, // a0
    0x0000000000000000, // b0
    0x0000000000000000, // c0
    0x0000000000000000, // d0
    0x0000000000000000, // e0
    0x0000000000000000, // f0
];

// A row of the table. Each place is written out: the compiler then keeps the rows as constants, and lays nothing out at
// a use.
fn row(i: u8) -> u64
    requires { i < 16 }
    ensures { result ≡ row_of i }
{
    match i {
        0 => CLASSES[0],
        1 => CLASSES[1],
        2 => CLASSES[2],
        3 => CLASSES[3],
        4 => CLASSES[4],
        5 => CLASSES[5],
        6 => CLASSES[6],
        7 => CLASSES[7],
        8 => CLASSES[8],
        9 => CLASSES[9],
        10 => CLASSES[10],
        11 => CLASSES[11],
        12 => CLASSES[12],
        13 => CLASSES[13],
        14 => CLASSES[14],
        _ => CLASSES[15],
    }
}

// The table has the k-th class for b. The lowest bit of each place in its row, behind a shift by k, is of that class;
// most rows have none, and that is told first.
fn is_of(b: u8, k: u8) -> bool
    requires { k < 4 }
    ensures { result ≡ is_of k b }
{
    let r = (row(b / 16) >> k) & 0x1111111111111111;
    if r == 0 {
        return false;
    }
    (r >> (4 * (b % 16))) & 1 != 0
}

// A to Z, a to z.
pub fn is_letter(b: u8) -> bool
    ensures { result ≡ is_letter b }
{
    is_of(b, 0)
}

// 0 to 9.
pub fn is_digit(b: u8) -> bool
    ensures { result ≡ is_digit b }
{
    is_of(b, 1)
}

// One of 20, 09, 0a, 0c, 0d. 0b is none, so before `GW` it stays.
pub fn is_ascii_blank(b: u8) -> bool
    ensures { result ≡ is_ascii_blank b }
{
    is_of(b, 2)
}

// Plus or minus.
pub fn is_sign(b: u8) -> bool
    ensures { result ≡ is_sign b }
{
    is_of(b, 3)
}
