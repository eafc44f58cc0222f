ghost use Rattle.std.specs.Prelude.{◌≡◌, drop};
ghost use Rattle.qs_parser.specs.steps.Asking.{IsExact, seen};
ghost use Rattle.qs_parser.specs.steps.Knot.{below};
ghost use Rattle.qs_parser.specs.steps.Tokens.{Gives};
ghost use Rattle.qs_parser.specs.steps.Expressions.{args_at, cast_at, closed, duration_at, enclosed, group_at, has_width, kind_at, named_at, primary, type_of, type_word, word_at};

use crate::below::{Ask, Below, Read, Tree};
use crate::lists::commas;
use crate::stop::Stop;
use crate::tokens::{after_sign, begins_sign, is_sign};
use qs_lexer::{Token, TokenKind};
use qs_tree::{Expr, ExprKind, TypeExpr, TypeWord};
use qs_values::{Boxed, List, Name, Span, is_name};

/// An expression one construct deeper, and the bracket after it.
#[tactic(auto, unfolding(crate::specs::steps::Expressions::closed))]
pub fn closed<F: Fn(Ask) -> Result<Read<Tree>, Stop>>(
    deeper: &Below<'_, F>,
    after: &str,
    renew: usize,
    left: usize,
    at: usize,
) -> Result<Read<Expr>, Stop>
    requires callable { F.IsAlwaysCallable deeper.now.read }
    requires exact { IsExact (F.post deeper.now.read) deeper.now.depth deeper.now.tokens.now }
    ensures { Gives (seen deeper.now.tokens.now) result
        (closed after.now (below deeper.now.depth) renew left (drop at deeper.now.tokens.now)) }
{
    let Read { item, left, at } = deeper.whole(renew, left, at)?;
    let at = after_sign(deeper.tokens, at, after)?;
    Ok(Read { item, left, at })
}

/// An expression in brackets of two signs.
#[tactic(auto, unfolding(crate::specs::steps::Expressions::enclosed))]
pub fn enclosed<F: Fn(Ask) -> Result<Read<Tree>, Stop>>(
    deeper: &Below<'_, F>,
    before: &str,
    after: &str,
    renew: usize,
    left: usize,
    at: usize,
) -> Result<Read<Expr>, Stop>
    requires callable { F.IsAlwaysCallable deeper.now.read }
    requires exact { IsExact (F.post deeper.now.read) deeper.now.depth deeper.now.tokens.now }
    ensures { Gives (seen deeper.now.tokens.now) result
        (enclosed before.now after.now (below deeper.now.depth) renew left
        (drop at deeper.now.tokens.now)) }
{
    let at = after_sign(deeper.tokens, at, before)?;
    closed(deeper, after, renew, left, at)
}

/// The arguments of a call: expressions in brackets, with commas between, or none.
pub fn args_at<F: Fn(Ask) -> Result<Read<Tree>, Stop>>(
    deeper: &Below<'_, F>,
    renew: usize,
    left: usize,
    at: usize,
) -> Result<Read<List<Expr>>, Stop>
    requires callable { F.IsAlwaysCallable deeper.now.read }
    requires exact { IsExact (F.post deeper.now.read) deeper.now.depth deeper.now.tokens.now }
    ensures { Gives (seen deeper.now.tokens.now) result
        (args_at (below deeper.now.depth) renew left (drop at deeper.now.tokens.now)) }
{
    let at = after_sign(deeper.tokens, at, "(")?;
    if deeper.depth == 0 {
        return Err(Stop::Unread);
    }
    if begins_sign(deeper.tokens, at, ")") {
        return Ok(Read {
            item: List::new(deeper.alloc),
            left,
            at: at + 1,
        });
    }
    let Read { item, left, at } = commas(
        deeper.alloc,
        deeper.tokens,
        |left: usize, at: usize| deeper.whole(renew, left, at),
        left,
        at,
    )?;
    let at = after_sign(deeper.tokens, at, ")")?;
    Ok(Read { item, left, at })
}

/// The type of a word.
pub fn type_word(text: &str) -> Option<TypeWord>
    ensures { result ≡ type_word text.now }
{
    match text {
        "bit" => Some(TypeWord::Bit),
        "int" => Some(TypeWord::Int),
        "uint" => Some(TypeWord::Uint),
        "angle" => Some(TypeWord::Angle),
        "bool" => Some(TypeWord::Bool),
        "duration" => Some(TypeWord::Duration),
        _ => None,
    }
}

/// Whether a type may have a width.
fn has_width(word: TypeWord) -> bool
    ensures { result ≡ has_width word }
{
    match word {
        TypeWord::Bool | TypeWord::Duration => false,
        _ => true,
    }
}

/// A type of this word, which begins at a span; `at` is the place after the word.
#[tactic(auto, unfolding(crate::specs::steps::Expressions::type_of))]
pub fn type_of<F: Fn(Ask) -> Result<Read<Tree>, Stop>>(
    deeper: &Below<'_, F>,
    renew: usize,
    left: usize,
    span: Span,
    word: TypeWord,
    at: usize,
) -> Result<Read<TypeExpr>, Stop>
    requires callable { F.IsAlwaysCallable deeper.now.read }
    requires exact { IsExact (F.post deeper.now.read) deeper.now.depth deeper.now.tokens.now }
    ensures { Gives (seen deeper.now.tokens.now) result
        (type_of (below deeper.now.depth) renew left span word (drop at deeper.now.tokens.now)) }
{
    if has_width(word) && begins_sign(deeper.tokens, at, "[") {
        let Read { item, left, at } = enclosed(deeper, "[", "]", renew, left, at)?;
        let width = Some(Boxed::new(deeper.alloc, item)?);
        return Ok(Read {
            item: TypeExpr { span, word, width },
            left,
            at,
        });
    }
    Ok(Read {
        item: TypeExpr {
            span,
            word,
            width: None,
        },
        left,
        at,
    })
}

/// The length of statements, after the word `durationof`.
#[tactic(auto, unfolding(crate::specs::steps::Expressions::duration_at))]
fn duration_at<F: Fn(Ask) -> Result<Read<Tree>, Stop>>(
    deeper: &Below<'_, F>,
    left: usize,
    at: usize,
) -> Result<Read<ExprKind>, Stop>
    requires callable { F.IsAlwaysCallable deeper.now.read }
    requires exact { IsExact (F.post deeper.now.read) deeper.now.depth deeper.now.tokens.now }
    ensures { Gives (seen deeper.now.tokens.now) result
        (duration_at (below deeper.now.depth) left (drop at deeper.now.tokens.now)) }
{
    let at = after_sign(deeper.tokens, at, "(")?;
    let Read { item, left, at } = deeper.block(0, left, at)?;
    let at = after_sign(deeper.tokens, at, ")")?;
    Ok(Read {
        item: ExprKind::DurationOf(item),
        left,
        at,
    })
}

/// A cast to a type of this word, which begins at a span; `at` is the place after the word.
#[tactic(auto, unfolding(crate::specs::steps::Expressions::cast_at))]
fn cast_at<F: Fn(Ask) -> Result<Read<Tree>, Stop>>(
    deeper: &Below<'_, F>,
    left: usize,
    span: Span,
    word: TypeWord,
    at: usize,
) -> Result<Read<ExprKind>, Stop>
    requires callable { F.IsAlwaysCallable deeper.now.read }
    requires exact { IsExact (F.post deeper.now.read) deeper.now.depth deeper.now.tokens.now }
    ensures { Gives (seen deeper.now.tokens.now) result
        (cast_at (below deeper.now.depth) left span word (drop at deeper.now.tokens.now)) }
{
    let target = type_of(deeper, 0, left, span, word, at)?;
    let operand = enclosed(deeper, "(", ")", 0, target.left, target.at)?;
    Ok(Read {
        item: ExprKind::Cast(target.item, Boxed::new(deeper.alloc, operand.item)?),
        left: operand.left,
        at: operand.at,
    })
}

/// What begins with a name: an indexed name, a call, or the name alone; `at` is the place after it.
#[tactic(auto, unfolding(crate::specs::steps::Expressions::named_at))]
fn named_at<F: Fn(Ask) -> Result<Read<Tree>, Stop>>(
    deeper: &Below<'_, F>,
    left: usize,
    name: &str,
    at: usize,
) -> Result<Read<ExprKind>, Stop>
    requires callable { F.IsAlwaysCallable deeper.now.read }
    requires exact { IsExact (F.post deeper.now.read) deeper.now.depth deeper.now.tokens.now }
    ensures { Gives (seen deeper.now.tokens.now) result
        (named_at (below deeper.now.depth) left name.now (drop at deeper.now.tokens.now)) }
{
    let name = Name::copy_of(deeper.alloc, name)?;
    if begins_sign(deeper.tokens, at, "[") {
        let Read { item, left, at } = enclosed(deeper, "[", "]", 0, left, at)?;
        return Ok(Read {
            item: ExprKind::Index(name, Boxed::new(deeper.alloc, item)?),
            left,
            at,
        });
    }
    if begins_sign(deeper.tokens, at, "(") {
        let Read { item, left, at } = args_at(deeper, 0, left, at)?;
        return Ok(Read {
            item: ExprKind::Call(name, item),
            left,
            at,
        });
    }
    Ok(Read {
        item: ExprKind::Name(name),
        left,
        at,
    })
}

/// An expression that begins with a word, which begins at a span; `at` is the place after the word.
#[tactic(auto, unfolding(crate::specs::steps::Expressions::word_at))]
fn word_at<F: Fn(Ask) -> Result<Read<Tree>, Stop>>(
    deeper: &Below<'_, F>,
    left: usize,
    span: Span,
    text: &str,
    at: usize,
) -> Result<Read<ExprKind>, Stop>
    requires callable { F.IsAlwaysCallable deeper.now.read }
    requires exact { IsExact (F.post deeper.now.read) deeper.now.depth deeper.now.tokens.now }
    ensures { Gives (seen deeper.now.tokens.now) result
        (word_at (below deeper.now.depth) left span text.now (drop at deeper.now.tokens.now)) }
{
    if text == "true" {
        return Ok(Read {
            item: ExprKind::Truth(true),
            left,
            at,
        });
    }
    if text == "false" {
        return Ok(Read {
            item: ExprKind::Truth(false),
            left,
            at,
        });
    }
    if text == "durationof" {
        return duration_at(deeper, left, at);
    }
    match type_word(text) {
        Some(word) => cast_at(deeper, left, span, word, at),
        None if is_name(text) => named_at(deeper, left, text, at),
        None => Err(Stop::Unread),
    }
}

/// An expression in brackets, where its first token is the opening one; `at` is the place after it.
#[tactic(auto, unfolding(crate::specs::steps::Expressions::group_at))]
fn group_at<F: Fn(Ask) -> Result<Read<Tree>, Stop>>(
    deeper: &Below<'_, F>,
    left: usize,
    first: &Token,
    at: usize,
) -> Result<Read<ExprKind>, Stop>
    requires callable { F.IsAlwaysCallable deeper.now.read }
    requires exact { IsExact (F.post deeper.now.read) deeper.now.depth deeper.now.tokens.now }
    ensures { Gives (seen deeper.now.tokens.now) result
        (group_at (below deeper.now.depth) left first.now (drop at deeper.now.tokens.now)) }
{
    if !is_sign(first, "(") {
        return Err(Stop::Unread);
    }
    let Read { item, left, at } = closed(deeper, ")", 0, left, at)?;
    Ok(Read {
        item: ExprKind::Group(Boxed::new(deeper.alloc, item)?),
        left,
        at,
    })
}

/// What an expression that binds most tightly is, by its first token; `at` is the place after it.
#[tactic(auto, unfolding(crate::specs::steps::Expressions::kind_at))]
fn kind_at<F: Fn(Ask) -> Result<Read<Tree>, Stop>>(
    deeper: &Below<'_, F>,
    left: usize,
    first: &Token,
    at: usize,
) -> Result<Read<ExprKind>, Stop>
    requires callable { F.IsAlwaysCallable deeper.now.read }
    requires exact { IsExact (F.post deeper.now.read) deeper.now.depth deeper.now.tokens.now }
    ensures { Gives (seen deeper.now.tokens.now) result
        (kind_at (below deeper.now.depth) left first.now (drop at deeper.now.tokens.now)) }
{
    let item = match first.kind {
        TokenKind::Word => return word_at(deeper, left, first.span, first.text.as_str(), at),
        TokenKind::Sign => return group_at(deeper, left, first, at),
        TokenKind::Physical(number) => ExprKind::Physical(number),
        TokenKind::Whole(value) => ExprKind::Whole(value),
        TokenKind::Decimal(value) => ExprKind::Decimal(value),
        TokenKind::Time(value, unit) => ExprKind::Time(value, unit),
        TokenKind::Text => ExprKind::Text(Name::copy_of(deeper.alloc, first.text.as_str())?),
    };
    Ok(Read { item, left, at })
}

/// What binds most tightly: a literal, a name with what follows it, a cast, or brackets.
#[tactic(auto, unfolding(crate::specs::steps::Expressions::primary))]
pub fn primary<F: Fn(Ask) -> Result<Read<Tree>, Stop>>(
    deeper: &Below<'_, F>,
    left: usize,
    at: usize,
) -> Result<Read<Expr>, Stop>
    requires callable { F.IsAlwaysCallable deeper.now.read }
    requires exact { IsExact (F.post deeper.now.read) deeper.now.depth deeper.now.tokens.now }
    ensures { Gives (seen deeper.now.tokens.now) result
        (primary (below deeper.now.depth) left (drop at deeper.now.tokens.now)) }
{
    let _count = deeper.tokens.len();
    let first = deeper.tokens.get(at).ok_or(Stop::Unread)?;
    let span = first.span;
    let Read { item, left, at } = kind_at(deeper, left, first, at + 1)?;
    let item = Expr { span, kind: item };
    Ok(Read { item, left, at })
}
