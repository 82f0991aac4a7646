// The template of each command. A number stands as 80 (hexadecimal) and more, a letter as 94 and more, the data as a0.
ghost use Rattle.std.specs.Prelude.{◌≡◌, ◌+◌, ◌≤◌, length};
ghost use Rattle.text.specs.Wrote.{Put};
ghost use Rattle.writing_templates.specs.Fill.{fill, FillLen};
ghost use Rattle.writing_templates.specs.Template.{template};

use crate::fill::{fill_len, put_fill};
use structs::answer::Element;

// 0 stands for nothing, so that all are equally long.
fn template(which: u8) -> [u8; 32]
    ensures { result ≡ template which }
{
    match which {
        1 => *b"A\x80,\x81,\x9c,\x8c,\x8d,\x8e,\x94,\"\xa0\"\n\0\0\0\0\0\0\0\0\0\0\0\0\0",
        2 => *b"X\x80,\x81,\x84,\x90,\x91\n\0\0\0\0\0\0\0\0\0\0\0\0\0\0\0\0\0\0\0\0\0",
        3 => *b"LS\x80,\x81,\x84,\x90,\x91\n\0\0\0\0\0\0\0\0\0\0\0\0\0\0\0\0\0\0\0\0",
        4 => *b"GW\x80,\x81,\x85,\x92,\xa0\n\0\0\0\0\0\0\0\0\0\0\0\0\0\0\0\0\0\0\0\0",
        5 => *b"B\x80,\x81,\x9c,\x99\x9a,\x82,2,\x83,\x95,\"\xa0\"\n\0\0\0\0\0\0\0\0\0\0",
        6 => *b"B\x80,\x81,\x9c,E30,\x82,2,\x83,\x95,\"\xa0\"\n\0\0\0\0\0\0\0\0\0",
        7 => *b"B\x80,\x81,\x9c,E80,\x82,2,\x83,\x95,\"\xa0\"\n\0\0\0\0\0\0\0\0\0",
        8 => *b"B\x80,\x81,\x9c,UA0,\x82,2,\x83,\x95,\"\xa0\"\n\0\0\0\0\0\0\0\0\0",
        9 => *b"B\x80,\x81,\x9c,2\x9b,\x82,\x8f,\x83,\x95,\"\xa0\"\n\0\0\0\0\0\0\0\0\0\0",
        10 => *b"B\x80,\x81,\x9c,3\x9b,\x82,\x8f,\x83,\x95,\"\xa0\"\n\0\0\0\0\0\0\0\0\0\0",
        11 => *b"b\x80,\x81,P,o\x9c,x\x82,y\x83,l\x87,r\x88,t\x97,\"\xa0\"\n\0\0\0",
        12 => *b"b\x80,\x81,A,d\x89,e\x8a,\"\xa0\"\n\0\0\0\0\0\0\0\0\0\0\0\0\0\0\0",
        13 => *b"b\x80,\x81,D,h\x83,c\x87,r\x88,\"\xa0\"\n\0\0\0\0\0\0\0\0\0\0\0\0",
        14 => *b"b\x80,\x81,Q,s\x89,e\x98,\"\xa0\"\n\0\0\0\0\0\0\0\0\0\0\0\0\0\0\0",
        15 => *b"b\x80,\x81,M,m\x8b,\"\xa0\"\n\0\0\0\0\0\0\0\0\0\0\0\0\0\0\0\0\0\0",
        16 => *b"B\x80,\x81,\x9c,UE0,\x82,2,\x83,\x95,\"\xa0\"\n\0\0\0\0\0\0\0\0\0",
        17 => *b"L\x96\x80,\x81,\x82,\x83\n\0\0\0\0\0\0\0\0\0\0\0\0\0\0\0\0\0\0\0\0\0\0",
        18 => *b"LS\x80,\x91,\x84,\x90,\x81\n\0\0\0\0\0\0\0\0\0\0\0\0\0\0\0\0\0\0\0\0",
        _ => *b"b\x80,\x81,P,o\x9c,x\x82,y\x83,l\x87,r\x88,t\x97,s\x86,\"\xa0\"\n",
    }
}

// How many bytes a command is, by its template, of an element with len bytes of data.
pub fn command_len(which: u8, e: Element, len: usize) -> usize
    requires { len ≤ 16777216 }
    ensures { FillLen e len (template which) result }
{
    let t = template(which);
    fill_len(&t, e, len)
}

// A command, by its template.
pub fn put_command(out: &mut [u8], at: usize, which: u8, e: Element, bytes: &[u8]) -> usize
    requires { at + length (fill e bytes.now (template which)) ≤ length out.old }
    ensures { Put out.new out.old at (fill e bytes.now (template which)) result }
{
    let t = template(which);
    put_fill(out, at, &t, e, bytes)
}
