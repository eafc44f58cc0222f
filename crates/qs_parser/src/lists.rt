ghost use Rattle.std.specs.Prelude.{◌≡◌, drop, ℕ, List as PureList, length};
ghost use Rattle.qs_lexer.specs.declared.token.Token.{Token as TokenValue};
ghost use Rattle.qs_parser.specs.steps.Asking.{ReadsAs, seen};
ghost use Rattle.qs_parser.specs.steps.Tokens.{Gives, Reads, commas, up_to_brace};

use crate::below::Read;
use crate::stop::Stop;
use crate::tokens::begins_sign;
use qs_lexer::Token;
use qs_values::List;
use std::alloc::Global;

/// What is read up to a closing brace, by a reader of one item; it ends after the brace.
pub fn up_to_brace<T: Drop, F: Fn(usize, usize) -> Result<Read<T>, Stop>>(
    alloc: Global,
    tokens: &[Token],
    item: F,
    mut left: usize,
    mut at: usize,
) -> Result<Read<List<T>>, Stop>
    requires callable { F.IsAlwaysCallable item }
    ensures { (reader : ℕ → PureList TokenValue → Reads T) → ReadsAs (F.post item) tokens.now reader
        → Gives (seen tokens.now) result
        (up_to_brace (length (drop at tokens.now)) reader left (drop at tokens.now)) }
{
    let mut items = List::new(alloc);
    for _turn in at..tokens.len() {
        if begins_sign(tokens, at, "}") {
            return Ok(Read {
                item: items,
                left,
                at: at + 1,
            });
        }
        let read = item(left, at)?;
        items.push(read.item)?;
        left = read.left;
        at = read.at;
    }
    Err(Stop::Unread)
}

/// What is read with commas between, by a reader of one item; it ends before what is no comma.
pub fn commas<T: Drop, F: Fn(usize, usize) -> Result<Read<T>, Stop>>(
    alloc: Global,
    tokens: &[Token],
    item: F,
    mut left: usize,
    mut at: usize,
) -> Result<Read<List<T>>, Stop>
    requires callable { F.IsAlwaysCallable item }
    ensures { (reader : ℕ → PureList TokenValue → Reads T) → ReadsAs (F.post item) tokens.now reader
        → Gives (seen tokens.now) result (commas reader left (drop at tokens.now)) }
{
    let mut items = List::new(alloc);
    let first = item(left, at)?;
    items.push(first.item)?;
    left = first.left;
    at = first.at;
    for _turn in at..tokens.len() {
        if !begins_sign(tokens, at, ",") {
            return Ok(Read {
                item: items,
                left,
                at,
            });
        }
        let read = item(left, at + 1)?;
        items.push(read.item)?;
        left = read.left;
        at = read.at;
    }
    Ok(Read {
        item: items,
        left,
        at,
    })
}
