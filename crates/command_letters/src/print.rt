// `P`: a print line, and what it says.
ghost use Rattle.std.specs.Prelude.{◌≡◌};
ghost use Rattle.command_letters.specs.Print.{is_count, is_counts, counts_of};

use byte_slices::class::digit_run;
use elements::PrintCounts;
use parameters::params::number_from;

// A digit or more, and nothing else.
fn is_count(s: &[u8]) -> bool
    ensures { result ≡ is_count s.now }
{
    (digit_run(s) == s.len()) & (0 < s.len())
}

// What may stand behind `P`: nothing, a count, or two counts and a comma between them.
pub(crate) fn is_counts(s: &[u8]) -> bool
    ensures { result ≡ is_counts s.now }
{
    let n = digit_run(s);
    if n == s.len() {
        return true;
    }
    if s[n] != b',' {
        return false;
    }
    let m = n + 1;
    (0 < n) & is_count(&s[m..])
}

// Sets and copies of a print line, from what stands behind its `P`; each 1 where it is absent or beyond 32 bits.
pub fn parse_epl_print(params: &[u8]) -> PrintCounts
    ensures { result ≡ counts_of params.now }
{
    let sets = number_from(params, 0, 1);
    let copies = number_from(params, sets.next, 1);
    PrintCounts {
        sets: sets.value,
        copies: copies.value,
    }
}
