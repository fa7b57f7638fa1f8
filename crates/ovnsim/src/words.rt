//! The words of the command line.
ghost use Rattle.std.specs.Prelude.{◌≡◌, ◌↔◌, ◌∷◌, [], IsTrue, codes, map, string_bytes};

/// Whether this is the name of the command.
fn is_name(word: &String) -> bool
    ensures { IsTrue result ↔ (string_bytes word.now ≡ codes "replay") }
{
    word.as_bytes() == b"replay".as_slice()
}

/// Whether the words are those of the command: its name alone.
pub fn is_replay(words: &[String]) -> bool
    ensures { IsTrue result ↔ (map string_bytes words.now ≡ codes "replay" ∷ []) }
{
    match words {
        [word] => is_name(word),
        _ => false,
    }
}
