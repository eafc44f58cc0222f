ghost use Rattle.std.specs.Prelude.{◌≡◌, ◌+◌, ◌<◌, ◌^◌, length};
ghost use Rattle.std.specs.Str.{chars};
ghost use Rattle.qs_lexer.specs.Cut.{place_behind, place_behind_all};
ghost use Rattle.qs_lexer.specs.steps.Runs.{IsInLine};

use qs_values::Span;

/// Where a source begins.
pub const START: Span = Span { line: 1, col: 1 };

/// The place after a character.
fn place_behind(place: Span, c: char) -> Span
    requires line { place.line + 1 < 2 ^ 32 }
    requires col { place.col + 1 < 2 ^ 32 }
    ensures { result ≡ place_behind place c }
{
    if c == '\n' {
        Span {
            line: place.line + 1,
            col: 1,
        }
    } else {
        Span {
            line: place.line,
            col: place.col + 1,
        }
    }
}

/// The place after a text that begins at a place.
fn place_behind_all(place: Span, text: &str) -> Span
    requires line { place.line + length (chars text.now) < 2 ^ 32 }
    requires col { place.col + length (chars text.now) < 2 ^ 32 }
    ensures { result ≡ place_behind_all place (chars text.now) }
{
    let mut behind = place;
    for c in text.chars() {
        behind = place_behind(behind, c);
    }
    behind
}

/// The place after a piece that begins at a place; one that is in its line is as many columns long
/// as it has bytes.
#[inline(always)]
pub fn place_behind_piece(place: Span, text: &str, in_line: bool) -> Span
    requires line { place.line + length (chars text.now) < 2 ^ 32 }
    requires col { place.col + length (chars text.now) < 2 ^ 32 }
    requires in_line { IsInLine in_line text.now }
    ensures { result ≡ place_behind_all place (chars text.now) }
{
    if in_line {
        Span {
            line: place.line,
            col: place.col + text.len() as u32,
        }
    } else {
        place_behind_all(place, text)
    }
}
