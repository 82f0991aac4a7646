// One line, without its LF, at a reference.
ghost use Rattle.std.specs.Prelude.{◌≡◌, ◌+◌, ◌<◌, length};
ghost use Rattle.parameters.specs.Reading.{later_reading};
ghost use Rattle.commands.specs.Line.{with_data, quoted_reading, set_to, prints, command_reading, read_line};

use barcodes::barcode::parse_epl_barcode;
use barcodes_2d::barcode_2d::parse_epl_2d_barcode;
use byte_slices::fields::{before_last, without_trailing_commas};
use byte_slices::scan::find;
use command_letters::command::{Command, DataCommand, command_of};
use command_letters::print::parse_epl_print;
use command_letters::reference::parse_epl_reference;
use draws::draw::{parse_epl_box, parse_epl_diagonal, parse_epl_line};
use elements::{DataSpan, LabelPosition, PrintCounts};
use numbers::blank::{trim_end, trim_start};
use parameters::params::{tail, tail_two};
use parameters::reading::LineReading;
use texts::epl_text::parse_epl_text;

// A command with its parameters, its data and the data's place.
fn with_data(
    c: DataCommand,
    params: &[u8],
    data: &[u8],
    span: DataSpan,
    reference: LabelPosition,
) -> LineReading
    ensures { result ≡ with_data c params.now «data».now span reference }
{
    match c {
        DataCommand::Text => parse_epl_text(params, span, reference),
        DataCommand::Barcode => parse_epl_barcode(params, span, reference),
        DataCommand::Barcode2d => parse_epl_2d_barcode(params, data, span, reference),
    }
}

// `A`, `B`, `b`: fewer than two quotes, or no data, and nothing is read. The line t stands lead bytes behind the place
// that data is counted from.
fn read_quoted(c: DataCommand, t: &[u8], lead: usize, reference: LabelPosition) -> LineReading
    requires { lead + length t.now < 18446744073709551616 }
    ensures { result ≡ quoted_reading c lead t.now reference }
{
    // The first quote: what stands before it are the parameters, and the data follows it.
    let q = find(t, b'"');
    if t.len() - q < 2 {
        return LineReading::Passed;
    }
    let m = q + 1;
    let data = before_last(&t[m..], b'"');
    if data.len() == 0 {
        return LineReading::Passed;
    }
    let span = DataSpan {
        start: lead + m,
        len: data.len(),
    };
    let params = without_trailing_commas(tail(&t[..q]));
    with_data(c, params, data, span, reference)
}

// What a line says that sets the reference to p.
fn set_to(p: LabelPosition) -> LineReading
    ensures { result ≡ set_to p }
{
    LineReading::Reference(p.x, p.y)
}

// What a print line says.
fn prints(c: PrintCounts) -> LineReading
    ensures { result ≡ prints c }
{
    LineReading::Print(c.sets, c.copies)
}

// A command of the line t, whose blanks are off.
fn read_command(c: Command, t: &[u8], lead: usize, reference: LabelPosition) -> LineReading
    requires { lead + length t.now < 18446744073709551616 }
    ensures { result ≡ command_reading c lead t.now reference }
{
    match c {
        Command::Clear => LineReading::Clear,
        Command::Reference => set_to(parse_epl_reference(tail(t), reference)),
        Command::Data(d) => read_quoted(d, t, lead, reference),
        Command::Line(line_color) => parse_epl_line(tail_two(t), line_color, reference),
        Command::Diagonal => parse_epl_diagonal(tail_two(t), reference),
        Command::Box => parse_epl_box(tail(t), reference),
        Command::Print => prints(parse_epl_print(tail(t))),
        Command::Other => LineReading::Passed,
    }
}

// What the line that stands at `at` says at a reference, blanks at its ends included.
pub fn read_line(line: &[u8], at: usize, reference: LabelPosition) -> LineReading
    requires { at + length line.now < 18446744073709551616 }
    ensures { result ≡ later_reading at (read_line line.now reference) }
{
    let started = trim_start(line);
    let lead = line.len() - started.len();
    let t = trim_end(started);
    read_command(command_of(t), t, at + lead, reference)
}
