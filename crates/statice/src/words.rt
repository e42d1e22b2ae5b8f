ghost use Rattle.std.specs.Prelude.{◌≡◌};
ghost use Rattle.statice.specs.Words.{is_try};

/// Whether the words are `try` alone.
pub fn is_try(words: &[String]) -> bool
    ensures { result ≡ is_try words.now }
{
    match words {
        [word] => word.as_str() == "try",
        _ => false,
    }
}
