// Which command a line spells.
ghost use Rattle.std.specs.Prelude.{◌≡◌, [], ◌∷◌, get_or};
ghost use Rattle.text.specs.Ascii.{spelt};
ghost use Rattle.command_letters.specs.Command.{is_reference, is_print, command_of};

use crate::print::is_counts;
use byte_classes::class::is_digit;
use elements::LineColor;
use parameters::params::tail;

// The commands that have data between quotes: `A`, `B`, `b`.
#[derive(Clone, Copy)]
pub enum DataCommand {
    Text,
    Barcode,
    Barcode2d,
}

// The command that a line spells by its first letters.
#[derive(Clone, Copy)]
pub enum Command {
    Clear,
    Reference,
    Data(DataCommand),
    Line(LineColor),
    Diagonal,
    Box,
    Print,
    // Passed over.
    Other,
}

// The byte at i, or 0 past the end.
pub fn byte_at(t: &[u8], i: usize) -> u8
    ensures { result ≡ get_or t.now i 0 }
{
    if i < t.len() { t[i] } else { 0 }
}

// `R` and a digit.
pub fn is_epl_reference_point(t: &[u8]) -> bool
    ensures { result ≡ is_reference t.now }
{
    (byte_at(t, 0) == b'R') & is_digit(byte_at(t, 1))
}

// `P`, or `P` and a count, or `P` and two counts with a comma between them.
pub(crate) fn is_epl_print_command(t: &[u8]) -> bool
    ensures { result ≡ is_print t.now }
{
    (byte_at(t, 0) == b'P') & is_counts(tail(t))
}

// An `L` and the byte b: `LO`, `LW`, `LE`, `LS`.
pub(crate) fn line_command(b: u8) -> Command
    ensures { result ≡ command_of (spelt "L" (b ∷ [])) }
{
    match b {
        b'O' => Command::Line(LineColor::Black),
        b'W' => Command::Line(LineColor::White),
        b'E' => Command::Line(LineColor::Xor),
        b'S' => Command::Diagonal,
        _ => Command::Other,
    }
}

// The command of a line whose blanks are off, in 01's order.
pub fn command_of(t: &[u8]) -> Command
    ensures { result ≡ command_of t.now }
{
    let a = byte_at(t, 0);
    match a {
        b'N' => {
            if t.len() == 1 {
                Command::Clear
            } else {
                Command::Other
            }
        }
        b'R' => {
            if is_epl_reference_point(t) {
                Command::Reference
            } else {
                Command::Other
            }
        }
        b'A' => Command::Data(DataCommand::Text),
        b'B' => Command::Data(DataCommand::Barcode),
        b'b' => Command::Data(DataCommand::Barcode2d),
        b'L' => line_command(byte_at(t, 1)),
        b'X' => Command::Box,
        b'P' => {
            if is_epl_print_command(t) {
                Command::Print
            } else {
                Command::Other
            }
        }
        _ => Command::Other,
    }
}
