// Bytes into a lent buffer. Long ones go in runs of 16 or 4 bytes, which the compiler makes wide moves of.
ghost use Rattle.std.specs.Prelude.{◌≡◌, ◌+◌, ◌<◌, ◌≤◌, length, take, drop};
ghost use Rattle.text.specs.Wrote.{Wrote};

// N bytes from `from` on.
fn load<const N: usize>(src: &[u8], from: usize) -> [u8; N]
    requires { from + N ≤ length src.now }
    ensures { result ≡ take N (drop from src.now) }
{
    let mut t = [0; N];
    for i in 0..N {
        t[i] = src[from + i];
    }
    t
}

// Stores t in out, from at on.
fn store<const N: usize>(t: [u8; N], out: &mut [u8], at: usize)
    requires { at + N ≤ length out.old }
    ensures { Wrote out.new out.old at t.entry }
{
    for i in 0..N {
        out[at + i] = t[i];
    }
}

// Stores src, N bytes or more, by runs of N. The last run ends where src ends, so it may overlap the one before.
fn by_runs<const N: usize>(src: &[u8], out: &mut [u8], at: usize)
    requires { (0 < N) × (N ≤ length src.now) × (at + length src.now ≤ length out.old) }
    ensures { Wrote out.new out.old at src.now }
{
    let e = src.len() - N;
    store::<N>(load(src, 0), out, at);
    let mut i = N;
    while i < e {
        store::<N>(load(src, i), out, at + i);
        i += N;
    }
    store::<N>(load(src, e), out, at + e);
}

// Stores at most three bytes: the first, the middle and the last, which may be one and the same.
#[tactic(auto, using(text::proofs::WroteLaws::wrote_few))]
fn put_few(src: &[u8], out: &mut [u8], at: usize)
    requires { (length src.now < 4) × (at + length src.now ≤ length out.old) }
    ensures { Wrote out.new out.old at src.now }
{
    let n = src.len();
    if 0 < n {
        let h = n / 2;
        let e = n - 1;
        out[at] = src[0];
        out[at + h] = src[h];
        out[at + e] = src[e];
    }
}

// Stores src in out, from at on.
pub fn put_bytes(src: &[u8], out: &mut [u8], at: usize)
    requires { at + length src.now ≤ length out.old }
    ensures { Wrote out.new out.old at src.now }
{
    let n = src.len();
    if n < 4 {
        put_few(src, out, at);
    } else if n < 16 {
        by_runs::<4>(src, out, at);
    } else {
        by_runs::<16>(src, out, at);
    }
}
