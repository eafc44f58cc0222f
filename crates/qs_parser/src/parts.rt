ghost use Rattle.std.specs.Prelude.{◌≡◌, drop, codes};
ghost use Rattle.qs_parser.specs.steps.Asking.{IsExact, after_it, rest_at, seen};
ghost use Rattle.qs_parser.specs.steps.Knot.{below};
ghost use Rattle.qs_parser.specs.steps.Tokens.{Gives, after_sign, name_at};
ghost use Rattle.qs_parser.specs.steps.Statements.{acted_at, bracket_at, count_at, operand_at, operands_at, place_at, type_at, value_at};

use crate::below::{Ask, Below, Read, Tree};
use crate::expressions::{enclosed, type_of, type_word};
use crate::levels::whole_at;
use crate::lists::commas;
use crate::stop::Stop;
use crate::tokens::{after_sign, begins_sign, past_word};
use qs_lexer::{Token, TokenKind};
use qs_tree::{Expr, Ident, Operand, Place, TypeExpr, Value};
use qs_values::{Boxed, List, Name, is_name};
use std::alloc::Global;

/// A name, and the place after it.
pub fn name_at(alloc: Global, tokens: &[Token], at: usize) -> Result<(Ident, usize), Stop>
    ensures { Gives (after_it tokens.now) result (name_at (drop at tokens.now)) }
{
    match tokens.get(at) {
        Some(token) => {
            let _count = tokens.len();
            match token.kind {
                TokenKind::Word => {
                    if !is_name(token.text.as_str()) {
                        return Err(Stop::Unread);
                    }
                    let name = Name::copy_of(alloc, token.text.as_str())?;
                    Ok((
                        Ident {
                            span: token.span,
                            name,
                        },
                        at + 1,
                    ))
                }
                _ => Err(Stop::Unread),
            }
        }
        None => Err(Stop::Unread),
    }
}

/// The place after a statement's `;`.
pub fn stopped(tokens: &[Token], at: usize) -> Result<usize, Stop>
    ensures { Gives (rest_at tokens.now) result (after_sign (codes ";") (drop at tokens.now)) }
{
    after_sign(tokens, at, ";")
}

/// A type as it is written.
#[tactic(auto, unfolding(crate::specs::steps::Statements::type_at))]
pub fn type_at<F: Fn(Ask) -> Result<Read<Tree>, Stop>>(
    deeper: &Below<'_, F>,
    renew: usize,
    left: usize,
    at: usize,
) -> Result<Read<TypeExpr>, Stop>
    requires callable { F.IsAlwaysCallable deeper.now.read }
    requires exact { IsExact (F.post deeper.now.read) deeper.now.depth deeper.now.tokens.now }
    ensures { Gives (seen deeper.now.tokens.now) result
        (type_at (below deeper.now.depth) renew left (drop at deeper.now.tokens.now)) }
{
    match deeper.tokens.get(at) {
        Some(token) => {
            let _count = deeper.tokens.len();
            match token.kind {
                TokenKind::Word => match type_word(token.text.as_str()) {
                    Some(word) => type_of(deeper, renew, left, token.span, word, at + 1),
                    None => Err(Stop::Unread),
                },
                _ => Err(Stop::Unread),
            }
        }
        None => Err(Stop::Unread),
    }
}

/// An expression in square brackets, or nothing.
#[tactic(auto, unfolding(crate::specs::steps::Statements::bracket_at))]
pub fn bracket_at<F: Fn(Ask) -> Result<Read<Tree>, Stop>>(
    deeper: &Below<'_, F>,
    renew: usize,
    left: usize,
    at: usize,
) -> Result<Read<Option<Expr>>, Stop>
    requires callable { F.IsAlwaysCallable deeper.now.read }
    requires exact { IsExact (F.post deeper.now.read) deeper.now.depth deeper.now.tokens.now }
    ensures { Gives (seen deeper.now.tokens.now) result
        (bracket_at (below deeper.now.depth) renew left (drop at deeper.now.tokens.now)) }
{
    if !begins_sign(deeper.tokens, at, "[") {
        return Ok(Read {
            item: None,
            left,
            at,
        });
    }
    let Read { item, left, at } = enclosed(deeper, "[", "]", renew, left, at)?;
    Ok(Read {
        item: Some(item),
        left,
        at,
    })
}

/// An expression in round brackets, or nothing.
#[tactic(auto, unfolding(crate::specs::steps::Statements::count_at))]
pub fn count_at<F: Fn(Ask) -> Result<Read<Tree>, Stop>>(
    deeper: &Below<'_, F>,
    renew: usize,
    left: usize,
    at: usize,
) -> Result<Read<Option<Expr>>, Stop>
    requires callable { F.IsAlwaysCallable deeper.now.read }
    requires exact { IsExact (F.post deeper.now.read) deeper.now.depth deeper.now.tokens.now }
    ensures { Gives (seen deeper.now.tokens.now) result
        (count_at (below deeper.now.depth) renew left (drop at deeper.now.tokens.now)) }
{
    if !begins_sign(deeper.tokens, at, "(") {
        return Ok(Read {
            item: None,
            left,
            at,
        });
    }
    let Read { item, left, at } = enclosed(deeper, "(", ")", renew, left, at)?;
    Ok(Read {
        item: Some(item),
        left,
        at,
    })
}

/// A name, or one element of what it names.
#[tactic(auto, unfolding(crate::specs::steps::Statements::place_at))]
pub fn place_at<F: Fn(Ask) -> Result<Read<Tree>, Stop>>(
    deeper: &Below<'_, F>,
    renew: usize,
    left: usize,
    at: usize,
) -> Result<Read<Place>, Stop>
    requires callable { F.IsAlwaysCallable deeper.now.read }
    requires exact { IsExact (F.post deeper.now.read) deeper.now.depth deeper.now.tokens.now }
    ensures { Gives (seen deeper.now.tokens.now) result
        (place_at (below deeper.now.depth) renew left (drop at deeper.now.tokens.now)) }
{
    let (name, at) = name_at(deeper.alloc, deeper.tokens, at)?;
    let Read { item, left, at } = bracket_at(deeper, renew, left, at)?;
    let index = match item {
        Some(index) => Some(Boxed::new(deeper.alloc, index)?),
        None => None,
    };
    Ok(Read {
        item: Place { name, index },
        left,
        at,
    })
}

/// What is acted on: a physical qubit, or a place.
#[tactic(auto, unfolding(crate::specs::steps::Statements::operand_at))]
pub fn operand_at<F: Fn(Ask) -> Result<Read<Tree>, Stop>>(
    deeper: &Below<'_, F>,
    renew: usize,
    left: usize,
    at: usize,
) -> Result<Read<Operand>, Stop>
    requires callable { F.IsAlwaysCallable deeper.now.read }
    requires exact { IsExact (F.post deeper.now.read) deeper.now.depth deeper.now.tokens.now }
    ensures { Gives (seen deeper.now.tokens.now) result
        (operand_at (below deeper.now.depth) renew left (drop at deeper.now.tokens.now)) }
{
    match deeper.tokens.get(at) {
        Some(token) => {
            let _count = deeper.tokens.len();
            match token.kind {
                TokenKind::Physical(number) => Ok(Read {
                    item: Operand::PhysicalQubit(token.span, number),
                    left,
                    at: at + 1,
                }),
                _ => {
                    let Read { item, left, at } = place_at(deeper, renew, left, at)?;
                    Ok(Read {
                        item: Operand::Named(item),
                        left,
                        at,
                    })
                }
            }
        }
        None => Err(Stop::Unread),
    }
}

/// One or more operands, with commas between.
#[tactic(auto, unfolding(crate::specs::steps::Statements::operands_at))]
pub fn operands_at<F: Fn(Ask) -> Result<Read<Tree>, Stop>>(
    deeper: &Below<'_, F>,
    renew: usize,
    left: usize,
    at: usize,
) -> Result<Read<List<Operand>>, Stop>
    requires callable { F.IsAlwaysCallable deeper.now.read }
    requires exact { IsExact (F.post deeper.now.read) deeper.now.depth deeper.now.tokens.now }
    ensures { Gives (seen deeper.now.tokens.now) result
        (operands_at (below deeper.now.depth) renew left (drop at deeper.now.tokens.now)) }
{
    commas(
        deeper.alloc,
        deeper.tokens,
        |left: usize, at: usize| operand_at(deeper, renew, left, at),
        left,
        at,
    )
}

/// Any number of operands, before a `;`.
#[tactic(auto, unfolding(crate::specs::steps::Statements::acted_at))]
pub fn acted_at<F: Fn(Ask) -> Result<Read<Tree>, Stop>>(
    deeper: &Below<'_, F>,
    renew: usize,
    left: usize,
    at: usize,
) -> Result<Read<List<Operand>>, Stop>
    requires callable { F.IsAlwaysCallable deeper.now.read }
    requires exact { IsExact (F.post deeper.now.read) deeper.now.depth deeper.now.tokens.now }
    ensures { Gives (seen deeper.now.tokens.now) result
        (acted_at (below deeper.now.depth) renew left (drop at deeper.now.tokens.now)) }
{
    if begins_sign(deeper.tokens, at, ";") {
        return Ok(Read {
            item: List::new(deeper.alloc),
            left,
            at,
        });
    }
    operands_at(deeper, renew, left, at)
}

/// A measurement, or an expression.
#[tactic(auto, unfolding(crate::specs::steps::Statements::value_at))]
pub fn value_at<F: Fn(Ask) -> Result<Read<Tree>, Stop>>(
    deeper: &Below<'_, F>,
    renew: usize,
    left: usize,
    at: usize,
) -> Result<Read<Value>, Stop>
    requires callable { F.IsAlwaysCallable deeper.now.read }
    requires exact { IsExact (F.post deeper.now.read) deeper.now.depth deeper.now.tokens.now }
    ensures { Gives (seen deeper.now.tokens.now) result
        (value_at (below deeper.now.depth) renew left (drop at deeper.now.tokens.now)) }
{
    match past_word(deeper.tokens, at, "measure") {
        Some(rest) => {
            let Read { item, left, at } = operand_at(deeper, renew, left, rest)?;
            Ok(Read {
                item: Value::Measurement(item),
                left,
                at,
            })
        }
        None => {
            let Read { item, left, at } = whole_at(deeper, renew, left, at)?;
            Ok(Read {
                item: Value::Expression(item),
                left,
                at,
            })
        }
    }
}
