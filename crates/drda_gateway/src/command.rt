ghost use Rattle.std.specs.Prelude.{◌≡◌, ◌↔◌, ◌∷◌, [], IsTrue, map, string_bytes};

/// Whether the words are this one alone.
pub fn are_words(words: &[String], name: &str) -> bool
    ensures { IsTrue result ↔ (map string_bytes words.now ≡ name.now ∷ []) }
{
    match words {
        [word] => word.as_str() == name,
        _ => false,
    }
}
