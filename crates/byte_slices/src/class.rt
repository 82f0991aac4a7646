// Runs of one class of bytes.
ghost use Rattle.std.specs.Prelude.{◌≡◌};
ghost use Rattle.text.specs.Class.{digit_run};

use byte_classes::class::is_digit;

// How many digits s begins with.
pub fn digit_run(s: &[u8]) -> usize
    ensures { result ≡ digit_run s.now }
{
    s.iter().take_while(|b| is_digit(**b)).count()
}
