ghost use Rattle.std.specs.Prelude.{◌≡◌, map};
ghost use Rattle.std.specs.Str.{chars};
ghost use Rattle.qs_values.specs.Names.{is_letter, begins_word, continues_word, is_word, is_reserved, is_name};
ghost use Rattle.qs_values.specs.steps.ReservedWords.{reserved_with};

use unicode::properties::GeneralCategory;

/// Whether the characters of a category begin a word.
fn is_letter(category: GeneralCategory) -> bool
    ensures { result ≡ is_letter category }
{
    matches!(
        category,
        GeneralCategory::UppercaseLetter
            | GeneralCategory::LowercaseLetter
            | GeneralCategory::TitlecaseLetter
            | GeneralCategory::ModifierLetter
            | GeneralCategory::OtherLetter
            | GeneralCategory::LetterNumber
    )
}

/// Whether a character begins a word: `_`, an ASCII letter, or a character of category Lu, Ll, Lt,
/// Lm, Lo or Nl. Of ASCII these are the letters alone.
pub fn begins_word(c: char) -> bool
    ensures { result ≡ begins_word c }
{
    c == '_' || c.is_ascii_alphabetic() || '\u{80}' <= c && is_letter(GeneralCategory::for_char(c))
}

/// Whether a character goes on with a word: one that begins a word, or `0` to `9`.
pub fn continues_word(c: char) -> bool
    ensures { result ≡ continues_word c }
{
    begins_word(c) || c.is_ascii_digit()
}

/// Whether a text is a word.
fn is_word(text: &str) -> bool
    ensures { result ≡ is_word (chars text.now) }
{
    let mut characters = text.chars();
    match characters.next() {
        Some(first) => begins_word(first) && characters.all(continues_word),
        None => false,
    }
}

/// The reserved words that begin with a byte, those that this project leaves out among them.
fn reserved_with(first: u8) -> &'static [&'static str]
    ensures { map (λ word. word.now) result.now ≡ reserved_with first }
{
    match first {
        b'O' => &["OPENQASM"],
        b'a' => &["angle", "array"],
        b'b' => &["bit", "bool", "barrier", "box", "break"],
        b'c' => &[
            "const", "continue", "cal", "ctrl", "complex", "creg", "case",
        ],
        b'd' => &[
            "defcalgrammar",
            "duration",
            "delay",
            "defcal",
            "durationof",
            "default",
            "def",
        ],
        b'e' => &["else", "end", "extern"],
        b'f' => &["for", "false", "frame", "float"],
        b'g' => &["gate"],
        b'i' => &["include", "int", "input", "if", "in", "inv"],
        b'l' => &["let"],
        b'm' => &["measure", "mutable"],
        b'n' => &["negctrl"],
        b'o' => &["output"],
        b'p' => &["pow", "port"],
        b'q' => &["qubit", "qreg"],
        b'r' => &["reset", "return", "readonly"],
        b's' => &["stretch", "switch", "sizeof"],
        b't' => &["true"],
        b'u' => &["uint"],
        b'v' => &["void"],
        b'w' => &["while", "waveform"],
        _ => &[],
    }
}

/// Whether a text is a reserved word of OpenQASM 3.0, also one that this project leaves out.
pub fn is_reserved(text: &str) -> bool
    ensures { result ≡ is_reserved text.now }
{
    match text.as_bytes().first() {
        Some(first) => reserved_with(*first).iter().any(|word| text == *word),
        None => false,
    }
}

/// Whether a text is a name: a word that isn't reserved (OpenQASM 3.0, identifiers).
pub fn is_name(text: &str) -> bool
    ensures { result ≡ is_name text.now }
{
    is_word(text) && !is_reserved(text)
}
