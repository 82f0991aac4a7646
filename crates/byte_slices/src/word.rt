// Eight bytes looked at as one number.
ghost use Rattle.std.specs.Prelude.{◌≡◌, ◌+◌, ◌<◌, ◌≤◌, length};
ghost use Rattle.text.specs.Word.{Word, marks_at};

// One bit of each of eight bytes, its top one or its lowest; and all but the top ones.
const TOPS: u64 = 0x8080808080808080;

const ONES: u64 = 0x0101010101010101;

const BELOW: u64 = 0x7f7f7f7f7f7f7f7f;

fn wide(b: u8) -> u64
    ensures value { result ≡ b }
    ensures upper_bound { result < 256 }
{
    b as u64
}

// One byte, two and four from i on, the first lowest. The compiler makes one load of eight.
#[tactic(auto, using(text::proofs::WordLaws::word_one))]
fn one(a: &[u8], i: usize) -> u64
    requires { i + 1 ≤ length a.now }
    ensures word { Word 1 a.now i result }
    ensures upper_bound { result < 256 }
{
    wide(a[i])
}

fn two(a: &[u8], i: usize) -> u64
    requires { i + 2 ≤ length a.now }
    ensures word { Word 2 a.now i result }
    ensures upper_bound { result < 65536 }
{
    one(a, i + 1) * 256 + one(a, i)
}

fn four(a: &[u8], i: usize) -> u64
    requires { i + 4 ≤ length a.now }
    ensures word { Word 4 a.now i result }
    ensures upper_bound { result < 4294967296 }
{
    two(a, i + 2) * 65536 + two(a, i)
}

fn eight(a: &[u8], i: usize) -> u64
    requires { i + 8 ≤ length a.now }
    ensures { Word 8 a.now i result }
{
    four(a, i + 4) * 4294967296 + four(a, i)
}

// A mark for each of the eight bytes from i on that is b. A byte that differs from b has a bit left in x, and so a top
// bit in t: its own, or carried up.
pub(crate) fn marks(a: &[u8], i: usize, b: u8) -> u64
    requires { i + 8 ≤ length a.now }
    ensures { result ≡ marks_at 8 a.now b i }
{
    let x = eight(a, i) ^ (wide(b) * ONES);
    let t = ((x & BELOW) + BELOW) | x;
    (t & TOPS) ^ TOPS
}
