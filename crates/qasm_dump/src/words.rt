ghost use Rattle.std.specs.Prelude.{◌≡◌, map, option_map, string_bytes};
ghost use Rattle.qasm_dump.specs.Words.{call_of, is_file, pass_of};

use crate::output::Pass;

/// The pass that a word asks for.
fn pass_of(word: &str) -> Option<Pass>
    ensures { result ≡ pass_of word.now }
{
    match word {
        "tokens" => Some(Pass::Tokens),
        "tree" => Some(Pass::Tree),
        _ => None,
    }
}

/// Whether a word names a file: it is neither `-` nor empty.
fn is_file(word: &str) -> bool
    ensures { result ≡ is_file word.now }
{
    word != "-" && !word.is_empty()
}

/// The pass and the file of a call, and `None` where the words are no call.
pub fn call_of(words: &[String]) -> Option<(Pass, &str)>
    ensures { option_map (λ c. record { pass = c.0; file = c.1.now }) result
        ≡ call_of (map string_bytes words.now) }
{
    match words {
        [word, file] if is_file(file.as_str()) => match pass_of(word.as_str()) {
            Some(pass) => Some((pass, file.as_str())),
            None => None,
        },
        _ => None,
    }
}
