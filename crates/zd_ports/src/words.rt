//! The words of commands.

ghost use Rattle.std.specs.Prelude.{◌≡◌};
ghost use Rattle.zd_ports.specs.Words.{is_option};

/// Whether a word is an option: it begins with a minus, and isn't a minus alone.
pub fn is_option(word: &str) -> bool
    ensures { result ≡ is_option word.now }
{
    match word.as_bytes() {
        [first, _, ..] => *first == b'-',
        _ => false,
    }
}
