// Where a byte stands in a slice, and the parts that it cuts the slice into. Fields are read one after the other: the
// rest is handed on.
ghost use Rattle.std.specs.Prelude.{◌≡◌};
ghost use Rattle.text.specs.Fields.{before, after, before_last, without_trailing_commas};

use crate::scan::find;

// What stands before the last b: nothing where there is none.
pub fn before_last(s: &[u8], b: u8) -> &[u8]
    ensures { result.now ≡ before_last b s.now }
{
    match s.iter().rposition(|x| *x == b) {
        Some(n) => &s[..n],
        None => &s[..0],
    }
}

// The first field: all of s where there is no comma.
#[tactic(auto, unfolding(text::specs::Fields::before))]
pub fn first_field(s: &[u8]) -> &[u8]
    ensures { result.now ≡ before 44 s.now }
{
    &s[..find(s, b',')]
}

// What follows its comma: nothing where there is none.
#[tactic(auto, using(text::proofs::FieldsLaws::after_here, text::proofs::FieldsLaws::after_end))]
pub fn after_field(s: &[u8]) -> &[u8]
    ensures { result.now ≡ after 44 s.now }
{
    let n = find(s, b',');
    if n < s.len() { &s[n + 1..] } else { &s[n..] }
}

#[tactic(auto, unfolding(text::specs::Fields::without_trailing_commas))]
pub fn without_trailing_commas(s: &[u8]) -> &[u8]
    ensures { result.now ≡ without_trailing_commas s.now }
{
    let mut t = s;
    while let [front @ .., b','] = t {
        t = front;
    }
    t
}
