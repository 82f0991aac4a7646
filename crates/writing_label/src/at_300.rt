// The same of a label at 300 dots an inch.
ghost use Rattle.std.specs.Prelude.{◌≡◌};
ghost use Rattle.elements.specs.Given.{Fills, given_of};
ghost use Rattle.lent_lists.specs.Passed.{Passes};
ghost use Rattle.writing_label.specs.Label.{at300, plain_label_due300};
ghost use Rattle.writing_label.specs.Tally.{TurnOf300};

use crate::label::{begin, finish, measuring, plan};
use crate::tally::Tally;
use crate::turn::turn;
use dots::element::Element300;
use elements::filled::Filled;
use structs::answer::Element;

// The element as the printer's own dots say it.
fn dots_of(e: Element300) -> Element
    ensures { result ≡ at300 e }
{
    let x = e.x;
    let y = e.y;
    let width = e.width;
    let height = e.height;
    let thickness = e.thickness;
    Element {
        kind: e.kind,
        rotation: e.rotation,
        reverse: e.reverse,
        colour: e.colour,
        direction: e.direction,
        line: e.line,
        check: e.check,
        truncate: e.truncate,
        level: e.level,
        x: x.0,
        y: y.0,
        width: width.0,
        height: height.0,
        thickness: thickness.0,
        row_bytes: e.row_bytes,
        security: e.security,
        columns: e.columns,
        rows: e.rows,
        magnification: e.magnification,
        size: e.size,
        mode: e.mode,
        font: e.font,
        horizontal: e.horizontal,
        vertical: e.vertical,
        wide: e.wide,
        text_height: e.text_height,
        text_width: e.text_width,
        ratio: e.ratio,
        data_start: e.data_start,
        data_len: e.data_len,
    }
}

// One element.
fn turn_300(input: &[u8], out: &mut [u8], x: Element300, c: Tally) -> Tally
    ensures { TurnOf300 input.now x (c, out.old) (result, out.new) }
{
    turn(input, out, dots_of(x), c)
}

// Each element in turn.
fn pass_300(input: &[u8], xs: &[Element300], out: &mut [u8], start: Tally) -> Tally
    ensures { Passes (TurnOf300 input.now) xs.now (start, out.old) (result, out.new) }
{
    let mut c = start;
    let mut i: usize = 0;
    while i < xs.len() {
        c = turn_300(input, out, xs[i], c);
        i = i + 1;
    }
    c
}

// `N`, the elements and the print line, from the start of out; or a refusal that leaves out as it came.
pub fn write_label_300(
    input: &[u8],
    elements: &[Element300],
    sets: i32,
    copies: i32,
    out: &mut [u8],
) -> Filled
    ensures { Fills out.new out.old (plain_label_due300 input.now elements.now (record { sets = sets; copies = copies })) (given_of result) }
{
    let m = pass_300(input, elements, out, measuring());
    let p = plan(input.len(), elements.len(), out.len(), m, sets, copies);
    let c = begin(out, p);
    let e = pass_300(input, elements, out, c);
    finish(out, p, e, sets, copies)
}
