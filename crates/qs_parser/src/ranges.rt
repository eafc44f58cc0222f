ghost use Rattle.std.specs.Prelude.{◌≡◌, drop};
ghost use Rattle.qs_parser.specs.steps.Asking.{IsExact, seen};
ghost use Rattle.qs_parser.specs.steps.Knot.{below};
ghost use Rattle.qs_parser.specs.steps.Tokens.{Gives};
ghost use Rattle.qs_parser.specs.steps.Statements.{interval_at, range_at, set_at};

use crate::below::{Ask, Below, Read, Tree};
use crate::expressions::closed;
use crate::lists::commas;
use crate::stop::Stop;
use crate::tokens::{after_sign, is_sign, past_sign};
use qs_tree::Range;
use qs_values::{Boxed, Span};

/// An interval `[first:last]` or, with a step, `[first:step:last]`, after its first bracket.
#[tactic(auto, unfolding(crate::specs::steps::Statements::interval_at, crate::specs::steps::Statements::interval_end, crate::specs::steps::Expressions::closed))]
fn interval_at<F: Fn(Ask) -> Result<Read<Tree>, Stop>>(
    deeper: &Below<'_, F>,
    span: Span,
    renew: usize,
    left: usize,
    at: usize,
) -> Result<Read<Range>, Stop>
    requires callable { F.IsAlwaysCallable deeper.now.read }
    requires exact { IsExact (F.post deeper.now.read) deeper.now.depth deeper.now.tokens.now }
    ensures { Gives (seen deeper.now.tokens.now) result
        (interval_at (below deeper.now.depth) span renew left (drop at deeper.now.tokens.now)) }
{
    let first = deeper.whole(renew, left, at)?;
    let at = after_sign(deeper.tokens, first.at, ":")?;
    let second = deeper.whole(renew, first.left, at)?;
    let start = Boxed::new(deeper.alloc, first.item)?;
    let next = Boxed::new(deeper.alloc, second.item)?;
    match past_sign(deeper.tokens, second.at, ":") {
        None => {
            let at = after_sign(deeper.tokens, second.at, "]")?;
            Ok(Read {
                item: Range::Interval(span, start, None, next),
                left: second.left,
                at,
            })
        }
        Some(rest) => {
            let Read { item, left, at } = closed(deeper, "]", renew, second.left, rest)?;
            let last = Boxed::new(deeper.alloc, item)?;
            Ok(Read {
                item: Range::Interval(span, start, Some(next), last),
                left,
                at,
            })
        }
    }
}

/// A set `{values}`, after its first brace.
#[tactic(auto, unfolding(crate::specs::steps::Statements::set_at))]
fn set_at<F: Fn(Ask) -> Result<Read<Tree>, Stop>>(
    deeper: &Below<'_, F>,
    span: Span,
    renew: usize,
    left: usize,
    at: usize,
) -> Result<Read<Range>, Stop>
    requires callable { F.IsAlwaysCallable deeper.now.read }
    requires exact { IsExact (F.post deeper.now.read) deeper.now.depth deeper.now.tokens.now }
    ensures { Gives (seen deeper.now.tokens.now) result
        (set_at (below deeper.now.depth) span renew left (drop at deeper.now.tokens.now)) }
{
    let Read { item, left, at } = commas(
        deeper.alloc,
        deeper.tokens,
        |left: usize, at: usize| deeper.whole(renew, left, at),
        left,
        at,
    )?;
    let at = after_sign(deeper.tokens, at, "}")?;
    Ok(Read {
        item: Range::Set(span, item),
        left,
        at,
    })
}

/// The values that a `for` goes through.
#[tactic(auto, unfolding(crate::specs::steps::Statements::range_at))]
pub fn range_at<F: Fn(Ask) -> Result<Read<Tree>, Stop>>(
    deeper: &Below<'_, F>,
    renew: usize,
    left: usize,
    at: usize,
) -> Result<Read<Range>, Stop>
    requires callable { F.IsAlwaysCallable deeper.now.read }
    requires exact { IsExact (F.post deeper.now.read) deeper.now.depth deeper.now.tokens.now }
    ensures { Gives (seen deeper.now.tokens.now) result
        (range_at (below deeper.now.depth) renew left (drop at deeper.now.tokens.now)) }
{
    match deeper.tokens.get(at) {
        Some(token) => {
            let _count = deeper.tokens.len();
            if is_sign(token, "[") {
                return interval_at(deeper, token.span, renew, left, at + 1);
            }
            if is_sign(token, "{") {
                return set_at(deeper, token.span, renew, left, at + 1);
            }
            Err(Stop::Unread)
        }
        None => Err(Stop::Unread),
    }
}
