// A pass over the elements of a label, in which each is measured, or written behind the one before.
ghost use Rattle.std.specs.Prelude.{◌≡◌};
ghost use Rattle.writing_label.specs.Tally.{onto, stopped_of, after_of};

// What is known of the elements behind.
#[derive(Clone, Copy)]
pub struct Tally {
    // How many are commands.
    pub number: usize,
    // Where the next command begins.
    pub at: usize,
    // The next one is no command, and the pass is over.
    pub refused: bool,
    // Commands are stored, and not only measured.
    pub writing: bool,
}

// a + n, or a where it has not 64 bits: a label that could come so far has too many elements.
pub(crate) fn onto(a: usize, n: usize) -> usize
    ensures { result ≡ onto a n }
{
    if n <= 18446744073709551615 - a {
        a + n
    } else {
        a
    }
}

fn stopped(c: Tally) -> Tally
    ensures { result ≡ stopped_of c }
{
    Tally {
        number: c.number,
        at: c.at,
        refused: true,
        writing: c.writing,
    }
}

// Behind a command of n bytes; none has 0.
pub(crate) fn after(c: Tally, n: usize) -> Tally
    ensures { result ≡ after_of c n }
{
    if n == 0 {
        return stopped(c);
    }
    Tally {
        number: onto(c.number, 1),
        at: onto(c.at, n),
        refused: false,
        writing: c.writing,
    }
}
