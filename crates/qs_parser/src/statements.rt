ghost use Rattle.std.specs.Prelude.{◌≡◌, drop};
ghost use Rattle.qs_parser.specs.steps.Asking.{IsExact, seen};
ghost use Rattle.qs_parser.specs.steps.Knot.{below};
ghost use Rattle.qs_parser.specs.steps.Tokens.{Gives};
ghost use Rattle.qs_parser.specs.steps.Statements.{block_at, body_at, box_at, else_at, for_at, gate_call_at, if_at, named_stmt, nested_at, stmt_at, stmt_of, stopped, while_at};
ghost use Rattle.qs_tree.specs.declared.statement.StmtKind.TheVariants.{Break, Continue, End};
ghost use Rattle.qs_tree.specs.WellFormed.{of_body};

use crate::assignments::{assignment_at, is_assigned};
use crate::below::{Ask, Below, Read, Tree};
use crate::calls::{call_at, is_modifier};
use crate::expressions::{enclosed, type_word};
use crate::lists::up_to_brace;
use crate::parts::{bracket_at, name_at, stopped, type_at};
use crate::ranges::range_at;
use crate::simple::{barrier_at, declaration_at, delay_at, measure_at, reset_at, stretch_at};
use crate::stop::Stop;
use crate::tokens::{after_sign, after_word, begins_sign, past_word};
use qs_lexer::{Token, TokenKind};
use qs_tree::{Body, Expr, Stmt, StmtKind};
use qs_values::{Boxed, List, is_name};

/// Statements in braces.
#[tactic(auto, unfolding(crate::specs::steps::Statements::block_at))]
pub fn block_at<F: Fn(Ask) -> Result<Read<Tree>, Stop>>(
    deeper: &Below<'_, F>,
    renew: usize,
    left: usize,
    at: usize,
) -> Result<Read<List<Stmt>>, Stop>
    requires callable { F.IsAlwaysCallable deeper.now.read }
    requires exact { IsExact (F.post deeper.now.read) deeper.now.depth deeper.now.tokens.now }
    ensures { Gives (seen deeper.now.tokens.now) result
        (block_at (below deeper.now.depth) renew left (drop at deeper.now.tokens.now)) }
{
    let at = after_sign(deeper.tokens, at, "{")?;
    if deeper.depth == 0 {
        return Err(Stop::Unread);
    }
    up_to_brace(
        deeper.alloc,
        deeper.tokens,
        |left: usize, at: usize| deeper.nested(renew, left, at),
        left,
        at,
    )
}

/// A statement in another one.
#[tactic(auto, unfolding(crate::specs::steps::Statements::nested_at))]
pub fn nested_at<F: Fn(Ask) -> Result<Read<Tree>, Stop>>(
    deeper: &Below<'_, F>,
    renew: usize,
    left: usize,
    at: usize,
) -> Result<Read<Stmt>, Stop>
    requires callable { F.IsAlwaysCallable deeper.now.read }
    requires exact { IsExact (F.post deeper.now.read) deeper.now.depth deeper.now.tokens.now }
    ensures { Gives (seen deeper.now.tokens.now) result
        (nested_at (below deeper.now.depth) renew left (drop at deeper.now.tokens.now)) }
{
    deeper.stmt(renew, left, at)
}

/// A body: statements in braces, or one without.
#[tactic(auto, unfolding(crate::specs::steps::Statements::body_at))]
pub fn body_at<F: Fn(Ask) -> Result<Read<Tree>, Stop>>(
    deeper: &Below<'_, F>,
    renew: usize,
    left: usize,
    at: usize,
) -> Result<Read<Body>, Stop>
    requires callable { F.IsAlwaysCallable deeper.now.read }
    requires exact { IsExact (F.post deeper.now.read) deeper.now.depth deeper.now.tokens.now }
    ensures { Gives (seen deeper.now.tokens.now) result
        (body_at (below deeper.now.depth) renew left (drop at deeper.now.tokens.now)) }
{
    if begins_sign(deeper.tokens, at, "{") {
        let Read { item, left, at } = block_at(deeper, renew, left, at)?;
        return Ok(Read {
            item: Body::Braces(item),
            left,
            at,
        });
    }
    let Read { item, left, at } = nested_at(deeper, renew, left, at)?;
    let item = Body::One(Boxed::new(deeper.alloc, item)?);
    Ok(Read { item, left, at })
}

/// A `while`, after the word.
#[tactic(auto, unfolding(crate::specs::steps::Statements::while_at))]
pub fn while_at<F: Fn(Ask) -> Result<Read<Tree>, Stop>>(
    deeper: &Below<'_, F>,
    renew: usize,
    left: usize,
    at: usize,
) -> Result<Read<StmtKind>, Stop>
    requires callable { F.IsAlwaysCallable deeper.now.read }
    requires exact { IsExact (F.post deeper.now.read) deeper.now.depth deeper.now.tokens.now }
    ensures { Gives (seen deeper.now.tokens.now) result
        (while_at (below deeper.now.depth) renew left (drop at deeper.now.tokens.now)) }
{
    let test = enclosed(deeper, "(", ")", renew, left, at)?;
    let body = body_at(deeper, renew, test.left, test.at)?;
    Ok(Read {
        item: StmtKind::While(test.item, body.item),
        left: body.left,
        at: body.at,
    })
}

/// A `box`, after the word.
#[tactic(auto, unfolding(crate::specs::steps::Statements::box_at))]
fn box_at<F: Fn(Ask) -> Result<Read<Tree>, Stop>>(
    deeper: &Below<'_, F>,
    renew: usize,
    left: usize,
    at: usize,
) -> Result<Read<StmtKind>, Stop>
    requires callable { F.IsAlwaysCallable deeper.now.read }
    requires exact { IsExact (F.post deeper.now.read) deeper.now.depth deeper.now.tokens.now }
    ensures { Gives (seen deeper.now.tokens.now) result
        (box_at (below deeper.now.depth) renew left (drop at deeper.now.tokens.now)) }
{
    let time = bracket_at(deeper, renew, left, at)?;
    let body = block_at(deeper, renew, time.left, time.at)?;
    Ok(Read {
        item: StmtKind::Box(time.item, body.item),
        left: body.left,
        at: body.at,
    })
}

/// Whether a body ends with an `if` that has no `else`.
fn lacks_else(body: &Body) -> bool
    ensures { result ≡ (of_body body.now).lacks_else }
{
    match body {
        Body::One(statement) => match &statement.get().kind {
            StmtKind::If(_, _, other) => match other {
                None => true,
                Some(body) => lacks_else(body),
            },
            StmtKind::While(_, body) | StmtKind::For(_, _, _, body) => lacks_else(body),
            _ => false,
        },
        Body::Braces(_) => false,
    }
}

/// What stands after an `if` with its body: an `else` belongs to the nearest `if`.
#[tactic(auto, unfolding(crate::specs::steps::Statements::else_at))]
fn else_at<F: Fn(Ask) -> Result<Read<Tree>, Stop>>(
    deeper: &Below<'_, F>,
    test: Expr,
    body: Body,
    renew: usize,
    left: usize,
    at: usize,
) -> Result<Read<StmtKind>, Stop>
    requires callable { F.IsAlwaysCallable deeper.now.read }
    requires exact { IsExact (F.post deeper.now.read) deeper.now.depth deeper.now.tokens.now }
    ensures { Gives (seen deeper.now.tokens.now) result
        (else_at (below deeper.now.depth) test body renew left (drop at deeper.now.tokens.now)) }
{
    match past_word(deeper.tokens, at, "else") {
        Some(rest) if !lacks_else(&body) => match body_at(deeper, renew, left, rest) {
            Ok(other) => Ok(Read {
                item: StmtKind::If(test, body, Some(other.item)),
                left: other.left,
                at: other.at,
            }),
            Err(Stop::Unread) => Ok(Read {
                item: StmtKind::If(test, body, None),
                left,
                at,
            }),
            Err(Stop::Memory) => Err(Stop::Memory),
        },
        _ => Ok(Read {
            item: StmtKind::If(test, body, None),
            left,
            at,
        }),
    }
}

/// An `if`, after the word.
#[tactic(auto, unfolding(crate::specs::steps::Statements::if_at))]
fn if_at<F: Fn(Ask) -> Result<Read<Tree>, Stop>>(
    deeper: &Below<'_, F>,
    renew: usize,
    left: usize,
    at: usize,
) -> Result<Read<StmtKind>, Stop>
    requires callable { F.IsAlwaysCallable deeper.now.read }
    requires exact { IsExact (F.post deeper.now.read) deeper.now.depth deeper.now.tokens.now }
    ensures { Gives (seen deeper.now.tokens.now) result
        (if_at (below deeper.now.depth) renew left (drop at deeper.now.tokens.now)) }
{
    let test = enclosed(deeper, "(", ")", renew, left, at)?;
    let body = body_at(deeper, renew, test.left, test.at)?;
    else_at(deeper, test.item, body.item, renew, body.left, body.at)
}

/// A `for`, after the word.
#[tactic(auto, unfolding(crate::specs::steps::Statements::for_at))]
fn for_at<F: Fn(Ask) -> Result<Read<Tree>, Stop>>(
    deeper: &Below<'_, F>,
    renew: usize,
    left: usize,
    at: usize,
) -> Result<Read<StmtKind>, Stop>
    requires callable { F.IsAlwaysCallable deeper.now.read }
    requires exact { IsExact (F.post deeper.now.read) deeper.now.depth deeper.now.tokens.now }
    ensures { Gives (seen deeper.now.tokens.now) result
        (for_at (below deeper.now.depth) renew left (drop at deeper.now.tokens.now)) }
{
    let ty = type_at(deeper, renew, left, at)?;
    let (name, at) = name_at(deeper.alloc, deeper.tokens, ty.at)?;
    let at = after_word(deeper.tokens, at, "in")?;
    let range = range_at(deeper, renew, ty.left, at)?;
    let body = body_at(deeper, renew, range.left, range.at)?;
    Ok(Read {
        item: StmtKind::For(ty.item, name, range.item, body.item),
        left: body.left,
        at: body.at,
    })
}

/// A call of a gate.
#[tactic(auto, unfolding(crate::specs::steps::Statements::gate_call_at))]
fn gate_call_at<F: Fn(Ask) -> Result<Read<Tree>, Stop>>(
    deeper: &Below<'_, F>,
    renew: usize,
    left: usize,
    at: usize,
) -> Result<Read<StmtKind>, Stop>
    requires callable { F.IsAlwaysCallable deeper.now.read }
    requires exact { IsExact (F.post deeper.now.read) deeper.now.depth deeper.now.tokens.now }
    ensures { Gives (seen deeper.now.tokens.now) result
        (gate_call_at (below deeper.now.depth) renew left (drop at deeper.now.tokens.now)) }
{
    let Read { item, left, at } = call_at(deeper, renew, left, at)?;
    Ok(Read {
        item: StmtKind::GateCall(item),
        left,
        at,
    })
}

/// A statement that begins with a name or a modifier; `rest` is the place after it.
#[tactic(auto, unfolding(crate::specs::steps::Statements::named_stmt))]
fn named_stmt<F: Fn(Ask) -> Result<Read<Tree>, Stop>>(
    deeper: &Below<'_, F>,
    renew: usize,
    left: usize,
    text: &str,
    rest: usize,
    at: usize,
) -> Result<Read<StmtKind>, Stop>
    requires callable { F.IsAlwaysCallable deeper.now.read }
    requires exact { IsExact (F.post deeper.now.read) deeper.now.depth deeper.now.tokens.now }
    ensures { Gives (seen deeper.now.tokens.now) result
        (named_stmt (below deeper.now.depth) renew left text.now (drop rest deeper.now.tokens.now)
        (drop at deeper.now.tokens.now)) }
{
    if is_modifier(text) {
        return gate_call_at(deeper, renew, left, at);
    }
    if !is_name(text) {
        return Err(Stop::Unread);
    }
    if is_assigned(deeper.tokens, rest) {
        return assignment_at(deeper, renew, left, at);
    }
    gate_call_at(deeper, renew, left, at)
}

/// A `break`, after the word.
#[tactic(auto, unfolding(crate::specs::steps::Statements::stopped))]
fn break_at(tokens: &[Token], left: usize, at: usize) -> Result<Read<StmtKind>, Stop>
    ensures { Gives (seen tokens.now) result (stopped Break left (drop at tokens.now)) }
{
    let at = stopped(tokens, at)?;
    Ok(Read {
        item: StmtKind::Break,
        left,
        at,
    })
}

/// A `continue`, after the word.
#[tactic(auto, unfolding(crate::specs::steps::Statements::stopped))]
fn continue_at(tokens: &[Token], left: usize, at: usize) -> Result<Read<StmtKind>, Stop>
    ensures { Gives (seen tokens.now) result (stopped Continue left (drop at tokens.now)) }
{
    let at = stopped(tokens, at)?;
    Ok(Read {
        item: StmtKind::Continue,
        left,
        at,
    })
}

/// A `end`, after the word.
#[tactic(auto, unfolding(crate::specs::steps::Statements::stopped))]
fn end_at(tokens: &[Token], left: usize, at: usize) -> Result<Read<StmtKind>, Stop>
    ensures { Gives (seen tokens.now) result (stopped End left (drop at tokens.now)) }
{
    let at = stopped(tokens, at)?;
    Ok(Read {
        item: StmtKind::End,
        left,
        at,
    })
}

/// A statement that begins with this word; `rest` is the place after it.
#[tactic(auto, unfolding(crate::specs::steps::Statements::stmt_of))]
fn stmt_of<F: Fn(Ask) -> Result<Read<Tree>, Stop>>(
    deeper: &Below<'_, F>,
    renew: usize,
    left: usize,
    text: &str,
    rest: usize,
    at: usize,
) -> Result<Read<StmtKind>, Stop>
    requires callable { F.IsAlwaysCallable deeper.now.read }
    requires exact { IsExact (F.post deeper.now.read) deeper.now.depth deeper.now.tokens.now }
    ensures { Gives (seen deeper.now.tokens.now) result
        (stmt_of (below deeper.now.depth) renew left text.now (drop rest deeper.now.tokens.now)
        (drop at deeper.now.tokens.now)) }
{
    match text {
        "const" => declaration_at(deeper, true, renew, left, rest),
        "stretch" => stretch_at(deeper.alloc, deeper.tokens, left, rest),
        "measure" => measure_at(deeper, renew, left, rest),
        "reset" => reset_at(deeper, renew, left, rest),
        "barrier" => barrier_at(deeper, renew, left, rest),
        "delay" => delay_at(deeper, renew, left, rest),
        "box" => box_at(deeper, renew, left, rest),
        "if" => if_at(deeper, renew, left, rest),
        "while" => while_at(deeper, renew, left, rest),
        "for" => for_at(deeper, renew, left, rest),
        "break" => break_at(deeper.tokens, left, rest),
        "continue" => continue_at(deeper.tokens, left, rest),
        "end" => end_at(deeper.tokens, left, rest),
        _ => match type_word(text) {
            Some(_) => declaration_at(deeper, false, renew, left, at),
            None => named_stmt(deeper, renew, left, text, rest, at),
        },
    }
}

/// A statement.
#[tactic(auto, unfolding(crate::specs::steps::Statements::stmt_at))]
pub fn stmt_at<F: Fn(Ask) -> Result<Read<Tree>, Stop>>(
    deeper: &Below<'_, F>,
    renew: usize,
    left: usize,
    at: usize,
) -> Result<Read<Stmt>, Stop>
    requires callable { F.IsAlwaysCallable deeper.now.read }
    requires exact { IsExact (F.post deeper.now.read) deeper.now.depth deeper.now.tokens.now }
    ensures { Gives (seen deeper.now.tokens.now) result
        (stmt_at (below deeper.now.depth) renew left (drop at deeper.now.tokens.now)) }
{
    match deeper.tokens.get(at) {
        Some(token) => {
            let _count = deeper.tokens.len();
            match token.kind {
                TokenKind::Word => {
                    let Read { item, left, at } = stmt_of(
                        deeper,
                        renew,
                        left,
                        token.text.as_str(),
                        at + 1,
                        at,
                    )?;
                    Ok(Read {
                        item: Stmt {
                            span: token.span,
                            kind: item,
                        },
                        left,
                        at,
                    })
                }
                _ => Err(Stop::Unread),
            }
        }
        None => Err(Stop::Unread),
    }
}
