// What the profile has against the unit that stands first. It dispatches on the first byte itself: a second caller of
// `command_of` would slow the plain walk.
ghost use Rattle.std.specs.Prelude.{◌≡◌, [], ◌∷◌};
ghost use Rattle.text.specs.Ascii.{spelt};
ghost use Rattle.command_letters.specs.Command.{command_of};
ghost use Rattle.grammar.specs.WellFormed.{at_least};
ghost use Rattle.grammar.specs.Size.{unit_size};
ghost use Rattle.profile.specs.Profile.{if_counted, line_rules, corner_rules, reference_objection, data_objection, quoted_objection, command_objection, line_objection, objection, looked_as};

use crate::rule::{Held, Objection, by_rules, if_counted, ruled};
use byte_slices::fields::{after_field, before_last, first_field, without_trailing_commas};
use byte_slices::scan::{find, line_size};
use command_letters::command::{DataCommand, byte_at, is_epl_reference_point};
use graphics::gw_span::{Graphic, gw_span, trim_line_start};
use numbers::blank::trim;
use parameters::params::{has_fields, tail, tail_two};

// `R`: x, then all after the first comma as y, if there is a comma.
fn reference_objection(s: &[u8]) -> Objection
    ensures { result ≡ reference_objection s.now }
{
    match ruled(1, b'x', first_field(s)) {
        Objection::Fine => {
            if find(s, b',') == s.len() {
                return Objection::Fine;
            }
            ruled(2, b'y', after_field(s))
        }
        Objection::To(k, h) => Objection::To(k, h),
    }
}

// `A`, `B`, `b` with their parameters, where there are enough of them.
fn data_objection(c: DataCommand, s: &[u8]) -> Objection
    ensures { result ≡ data_objection c s.now }
{
    match c {
        DataCommand::Text => if_counted(has_fields(s, 7), b"xyRFHV", s),
        DataCommand::Barcode => if_counted(has_fields(s, 8), b"xyR-nwh", s),
        DataCommand::Barcode2d => if_counted(has_fields(s, 3), b"xy", s),
    }
}

// A line of theirs: nothing where nothing is read.
fn quoted_objection(c: DataCommand, t: &[u8]) -> Objection
    ensures { result ≡ quoted_objection c t.now }
{
    let q = find(t, b'"');
    if t.len() - q < 2 {
        return Objection::Fine;
    }
    let m = q + 1;
    let data = before_last(&t[m..], b'"');
    if data.len() == 0 {
        return Objection::Fine;
    }
    data_objection(c, without_trailing_commas(tail(&t[..q])))
}

// `LO`, `LW`, `LE`.
fn sides(s: &[u8]) -> Objection
    ensures { result ≡ if_counted (at_least 4 s.now) line_rules s.now }
{
    if_counted(has_fields(s, 4), b"xywh", s)
}

// `LS`, `X`.
fn corners(s: &[u8]) -> Objection
    ensures { result ≡ if_counted (at_least 5 s.now) corner_rules s.now }
{
    if_counted(has_fields(s, 5), b"xytxy", s)
}

// The line t, its blanks off, that begins with `L` and the byte b.
fn drawn_objection(b: u8, t: &[u8]) -> Objection
    ensures { result ≡ command_objection (command_of (spelt "L" (b ∷ []))) t.now }
{
    match b {
        b'O' => sides(tail_two(t)),
        b'W' => sides(tail_two(t)),
        b'E' => sides(tail_two(t)),
        b'S' => corners(tail_two(t)),
        _ => Objection::Fine,
    }
}

// The line t, its blanks off.
fn command_objection(t: &[u8]) -> Objection
    ensures { result ≡ command_objection (command_of t.now) t.now }
{
    let a = byte_at(t, 0);
    match a {
        b'R' => {
            if is_epl_reference_point(t) {
                reference_objection(tail(t))
            } else {
                Objection::Fine
            }
        }
        b'A' => quoted_objection(DataCommand::Text, t),
        b'B' => quoted_objection(DataCommand::Barcode, t),
        b'b' => quoted_objection(DataCommand::Barcode2d, t),
        b'L' => drawn_objection(byte_at(t, 1), t),
        b'X' => corners(tail(t)),
        _ => Objection::Fine,
    }
}

fn line_objection(line: &[u8]) -> Objection
    ensures { result ≡ line_objection line.now }
{
    command_objection(trim(line))
}

// A look at what stands first: how many bytes it has, where the profile has nothing against it; or the objection.
#[derive(Clone, Copy)]
pub enum Looked {
    Passed(usize),
    Objected(u32, Held),
}

fn sized(o: Objection, size: usize) -> Looked
    ensures { result ≡ looked_as o size }
{
    match o {
        Objection::Fine => Looked::Passed(size),
        Objection::To(k, h) => Looked::Objected(k, h),
    }
}

// A look at the unit that stands first in rest, which goes to the end of input: a block, or a line with its LF.
pub fn look(rest: &[u8]) -> Looked
    ensures { result ≡ looked_as (objection rest.now) (unit_size rest.now) }
{
    match gw_span(rest) {
        Graphic::NoGraphic => {
            let n = find(rest, 10);
            sized(line_objection(&rest[..n]), line_size(n, rest.len()))
        }
        Graphic::Refused(_) => Looked::Passed(line_size(find(rest, 10), rest.len())),
        Graphic::Span(g) => sized(
            by_rules(b"xyWl", tail_two(trim_line_start(rest))),
            g.data_end,
        ),
    }
}
