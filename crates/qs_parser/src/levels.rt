ghost use Rattle.std.specs.Prelude.{◌≡◌, IfOk, drop, length};
ghost use Rattle.qs_tree.specs.declared.expr.ExprKind.TheVariants.{Binary};
ghost use Rattle.qs_parser.specs.steps.Asking.{IsExact, seen};
ghost use Rattle.qs_parser.specs.steps.Knot.{below};
ghost use Rattle.qs_parser.specs.steps.Tokens.{Gives, one_less};
ghost use Rattle.qs_parser.specs.steps.Expressions.{binary, chained, expr_at, placed, power, signed, unary, whole_at};
ghost use Rattle.qs_parser.specs.steps.Powers.{right_of};

use crate::below::{Ask, Below, Read, Tree};
use crate::expressions::primary;
use crate::operators::{bin_op_at, strength_at, un_op_at};
use crate::stop::Stop;
use crate::tokens::begins_sign;
use qs_tree::{BinOp, Expr, ExprKind, UnOp};
use qs_values::Boxed;
use std::alloc::{AllocError, Global};

/// How many levels of operators there are, but for `**` and the operators before an operand.
const LEVELS: usize = 10;

/// One operator less, where one may still come.
fn one_less(left: usize) -> Result<usize, Stop>
    ensures { Gives (λ fewer. fewer) result (one_less left) }
{
    if left == 0 {
        return Err(Stop::Unread);
    }
    Ok(left - 1)
}

/// Two operands with an operator between.
fn joined(alloc: Global, first: Expr, op: BinOp, second: Expr) -> Result<Expr, AllocError>
    ensures { IfOk result (λ e. e ≡ placed first.span (Binary first op second)) }
{
    let span = first.span;
    let first = Boxed::new(alloc, first)?;
    let second = Boxed::new(alloc, second)?;
    Ok(Expr {
        span,
        kind: ExprKind::Binary(first, op, second),
    })
}

/// An operator and its operand.
#[tactic(auto, unfolding(crate::specs::steps::Expressions::signed))]
fn signed<F: Fn(Ask) -> Result<Read<Tree>, Stop>>(
    deeper: &Below<'_, F>,
    op: UnOp,
    left: usize,
    at: usize,
) -> Result<Read<Expr>, Stop>
    requires callable { F.IsAlwaysCallable deeper.now.read }
    requires exact { IsExact (F.post deeper.now.read) deeper.now.depth deeper.now.tokens.now }
    ensures { Gives (seen deeper.now.tokens.now) result
        (signed op (below deeper.now.depth) left (drop at deeper.now.tokens.now)) }
{
    let _count = deeper.tokens.len();
    let span = deeper.tokens.get(at).ok_or(Stop::Unread)?.span;
    let fewer = one_less(left)?;
    let Read { item, left, at } = deeper.unary(fewer, at + 1)?;
    let kind = ExprKind::Unary(op, Boxed::new(deeper.alloc, item)?);
    Ok(Read {
        item: Expr { span, kind },
        left,
        at,
    })
}

/// What binds most tightly, or a power of it, with so many powers to the right of each other at most.
#[cycle(powers)]
fn power<F: Fn(Ask) -> Result<Read<Tree>, Stop>>(
    deeper: &Below<'_, F>,
    powers: usize,
    left: usize,
    at: usize,
) -> Result<Read<Expr>, Stop>
    requires callable { F.IsAlwaysCallable deeper.now.read }
    requires exact { IsExact (F.post deeper.now.read) deeper.now.depth deeper.now.tokens.now }
    ensures { Gives (seen deeper.now.tokens.now) result
        (power (right_of powers (below deeper.now.depth)) (below deeper.now.depth) left
        (drop at deeper.now.tokens.now)) }
{
    let Read {
        item: base,
        left,
        at,
    } = primary(deeper, left, at)?;
    if !begins_sign(deeper.tokens, at, "**") {
        return Ok(Read {
            item: base,
            left,
            at,
        });
    }
    if powers == 0 {
        return Err(Stop::Unread);
    }
    let fewer = one_less(left)?;
    let Read { item, left, at } = tight(deeper, powers - 1, fewer, at + 1)?;
    let item = joined(deeper.alloc, base, BinOp::Power, item)?;
    Ok(Read { item, left, at })
}

/// An operator and its operand, or what binds more tightly, with so many powers to the right of each
/// other at most.
#[cycle(powers)]
fn tight<F: Fn(Ask) -> Result<Read<Tree>, Stop>>(
    deeper: &Below<'_, F>,
    powers: usize,
    left: usize,
    at: usize,
) -> Result<Read<Expr>, Stop>
    requires callable { F.IsAlwaysCallable deeper.now.read }
    requires exact { IsExact (F.post deeper.now.read) deeper.now.depth deeper.now.tokens.now }
    ensures { Gives (seen deeper.now.tokens.now) result
        (unary powers (below deeper.now.depth) left (drop at deeper.now.tokens.now)) }
{
    match un_op_at(deeper.tokens, at) {
        Some(op) => signed(deeper, op, left, at),
        None => power(deeper, powers, left, at),
    }
}

/// An operand with operators before it, or what binds more tightly.
pub fn unary<F: Fn(Ask) -> Result<Read<Tree>, Stop>>(
    deeper: &Below<'_, F>,
    left: usize,
    at: usize,
) -> Result<Read<Expr>, Stop>
    requires callable { F.IsAlwaysCallable deeper.now.read }
    requires exact { IsExact (F.post deeper.now.read) deeper.now.depth deeper.now.tokens.now }
    ensures { Gives (seen deeper.now.tokens.now) result
        (unary left (below deeper.now.depth) left (drop at deeper.now.tokens.now)) }
{
    tight(deeper, left, left, at)
}

/// An operand with more operators of a level and their right operands.
#[cycle(levels)]
fn chained<F: Fn(Ask) -> Result<Read<Tree>, Stop>>(
    deeper: &Below<'_, F>,
    level: usize,
    first: Expr,
    mut left: usize,
    mut at: usize,
) -> Result<Read<Expr>, Stop>
    requires callable { F.IsAlwaysCallable deeper.now.read }
    requires exact { IsExact (F.post deeper.now.read) deeper.now.depth deeper.now.tokens.now }
    ensures { Gives (seen deeper.now.tokens.now) result
        (chained (length (drop at deeper.now.tokens.now)) level
        (binary level (below deeper.now.depth)) first left (drop at deeper.now.tokens.now)) }
{
    let mut item = first;
    for _turn in at..deeper.tokens.len() {
        let (op, next) = match bin_op_at(level, deeper.tokens, at) {
            Some(found) => found,
            None => return Ok(Read { item, left, at }),
        };
        let fewer = one_less(left)?;
        let right = binary(deeper, level, fewer, next)?;
        item = joined(deeper.alloc, item, op, right.item)?;
        left = right.left;
        at = right.at;
    }
    Ok(Read { item, left, at })
}

/// An expression of operators of so many levels.
#[cycle(levels)]
fn binary<F: Fn(Ask) -> Result<Read<Tree>, Stop>>(
    deeper: &Below<'_, F>,
    levels: usize,
    left: usize,
    at: usize,
) -> Result<Read<Expr>, Stop>
    requires callable { F.IsAlwaysCallable deeper.now.read }
    requires exact { IsExact (F.post deeper.now.read) deeper.now.depth deeper.now.tokens.now }
    ensures { Gives (seen deeper.now.tokens.now) result
        (binary levels (below deeper.now.depth) left (drop at deeper.now.tokens.now)) }
{
    let Read {
        mut item,
        mut left,
        mut at,
    } = unary(deeper, left, at)?;
    let mut next = strength_at(deeper.tokens, at);
    for level in 0..levels {
        if next == level {
            let read = chained(deeper, level, item, left, at)?;
            item = read.item;
            left = read.left;
            at = read.at;
            next = strength_at(deeper.tokens, at);
        }
    }
    Ok(Read { item, left, at })
}

/// An expression.
#[tactic(auto, unfolding(crate::specs::steps::Expressions::expr_at))]
pub fn expr_at<F: Fn(Ask) -> Result<Read<Tree>, Stop>>(
    deeper: &Below<'_, F>,
    left: usize,
    at: usize,
) -> Result<Read<Expr>, Stop>
    requires callable { F.IsAlwaysCallable deeper.now.read }
    requires exact { IsExact (F.post deeper.now.read) deeper.now.depth deeper.now.tokens.now }
    ensures { Gives (seen deeper.now.tokens.now) result
        (expr_at (below deeper.now.depth) left (drop at deeper.now.tokens.now)) }
{
    binary(deeper, LEVELS, left, at)
}

/// An expression, after which so many operators may come at least.
#[tactic(auto, unfolding(crate::specs::steps::Expressions::whole_at))]
pub fn whole_at<F: Fn(Ask) -> Result<Read<Tree>, Stop>>(
    deeper: &Below<'_, F>,
    renew: usize,
    left: usize,
    at: usize,
) -> Result<Read<Expr>, Stop>
    requires callable { F.IsAlwaysCallable deeper.now.read }
    requires exact { IsExact (F.post deeper.now.read) deeper.now.depth deeper.now.tokens.now }
    ensures { Gives (seen deeper.now.tokens.now) result
        (whole_at (below deeper.now.depth) renew left (drop at deeper.now.tokens.now)) }
{
    let Read { item, left, at } = expr_at(deeper, left, at)?;
    let left = left.max(renew);
    Ok(Read { item, left, at })
}
