ghost use Rattle.std.specs.Prelude.{◌≡◌, drop};
ghost use Rattle.qs_parser.specs.steps.Asking.{IsExact, seen};
ghost use Rattle.qs_parser.specs.steps.Knot.{below};
ghost use Rattle.qs_parser.specs.steps.Tokens.{Gives};
ghost use Rattle.qs_parser.specs.steps.Statements.{barrier_at, declaration_at, delay_at, init_at, measure_at, reset_at, stretch_at, to_at};

use crate::below::{Ask, Below, Read, Tree};
use crate::expressions::enclosed;
use crate::parts::{
    acted_at, name_at, operand_at, operands_at, place_at, stopped, type_at, value_at,
};
use crate::stop::Stop;
use crate::tokens::{after_sign, begins_sign, past_sign};
use qs_lexer::Token;
use qs_tree::{Ident, Place, StmtKind, TypeExpr};
use std::alloc::Global;

/// The value of a declaration, after the name.
#[tactic(auto, unfolding(crate::specs::steps::Statements::init_at, crate::specs::steps::Statements::stopped))]
fn init_at<F: Fn(Ask) -> Result<Read<Tree>, Stop>>(
    deeper: &Below<'_, F>,
    is_const: bool,
    type_expr: TypeExpr,
    name: Ident,
    renew: usize,
    left: usize,
    at: usize,
) -> Result<Read<StmtKind>, Stop>
    requires callable { F.IsAlwaysCallable deeper.now.read }
    requires exact { IsExact (F.post deeper.now.read) deeper.now.depth deeper.now.tokens.now }
    ensures { Gives (seen deeper.now.tokens.now) result
        (init_at (below deeper.now.depth) is_const type_expr name renew left
        (drop at deeper.now.tokens.now)) }
{
    let at = after_sign(deeper.tokens, at, "=")?;
    let Read { item, left, at } = value_at(deeper, renew, left, at)?;
    let at = stopped(deeper.tokens, at)?;
    Ok(Read {
        item: StmtKind::Init(is_const, type_expr, name, item),
        left,
        at,
    })
}

/// A declaration, after its `const` or without one.
#[tactic(auto, unfolding(crate::specs::steps::Statements::declaration_at, crate::specs::steps::Statements::stopped))]
pub fn declaration_at<F: Fn(Ask) -> Result<Read<Tree>, Stop>>(
    deeper: &Below<'_, F>,
    is_const: bool,
    renew: usize,
    left: usize,
    at: usize,
) -> Result<Read<StmtKind>, Stop>
    requires callable { F.IsAlwaysCallable deeper.now.read }
    requires exact { IsExact (F.post deeper.now.read) deeper.now.depth deeper.now.tokens.now }
    ensures { Gives (seen deeper.now.tokens.now) result
        (declaration_at (below deeper.now.depth) is_const renew left
        (drop at deeper.now.tokens.now)) }
{
    let ty = type_at(deeper, renew, left, at)?;
    let (name, at) = name_at(deeper.alloc, deeper.tokens, ty.at)?;
    if is_const || begins_sign(deeper.tokens, at, "=") {
        return init_at(deeper, is_const, ty.item, name, renew, ty.left, at);
    }
    let at = stopped(deeper.tokens, at)?;
    Ok(Read {
        item: StmtKind::Declare(ty.item, name),
        left: ty.left,
        at,
    })
}

/// A `stretch`, after the word.
#[tactic(auto, unfolding(crate::specs::steps::Statements::stretch_at, crate::specs::steps::Statements::stopped))]
pub fn stretch_at(
    alloc: Global,
    tokens: &[Token],
    left: usize,
    at: usize,
) -> Result<Read<StmtKind>, Stop>
    ensures { Gives (seen tokens.now) result (stretch_at left (drop at tokens.now)) }
{
    let (name, at) = name_at(alloc, tokens, at)?;
    let at = stopped(tokens, at)?;
    Ok(Read {
        item: StmtKind::Stretch(name),
        left,
        at,
    })
}

/// Where the result of a measurement goes, or nothing.
#[tactic(auto, unfolding(crate::specs::steps::Statements::to_at))]
fn to_at<F: Fn(Ask) -> Result<Read<Tree>, Stop>>(
    deeper: &Below<'_, F>,
    renew: usize,
    left: usize,
    at: usize,
) -> Result<Read<Option<Place>>, Stop>
    requires callable { F.IsAlwaysCallable deeper.now.read }
    requires exact { IsExact (F.post deeper.now.read) deeper.now.depth deeper.now.tokens.now }
    ensures { Gives (seen deeper.now.tokens.now) result
        (to_at (below deeper.now.depth) renew left (drop at deeper.now.tokens.now)) }
{
    match past_sign(deeper.tokens, at, "->") {
        None => Ok(Read {
            item: None,
            left,
            at,
        }),
        Some(rest) => {
            let Read { item, left, at } = place_at(deeper, renew, left, rest)?;
            Ok(Read {
                item: Some(item),
                left,
                at,
            })
        }
    }
}

/// A `measure`, after the word.
#[tactic(auto, unfolding(crate::specs::steps::Statements::measure_at, crate::specs::steps::Statements::stopped))]
pub fn measure_at<F: Fn(Ask) -> Result<Read<Tree>, Stop>>(
    deeper: &Below<'_, F>,
    renew: usize,
    left: usize,
    at: usize,
) -> Result<Read<StmtKind>, Stop>
    requires callable { F.IsAlwaysCallable deeper.now.read }
    requires exact { IsExact (F.post deeper.now.read) deeper.now.depth deeper.now.tokens.now }
    ensures { Gives (seen deeper.now.tokens.now) result
        (measure_at (below deeper.now.depth) renew left (drop at deeper.now.tokens.now)) }
{
    let operand = operand_at(deeper, renew, left, at)?;
    let Read { item, left, at } = to_at(deeper, renew, operand.left, operand.at)?;
    let at = stopped(deeper.tokens, at)?;
    Ok(Read {
        item: StmtKind::Measure(operand.item, item),
        left,
        at,
    })
}

/// A `reset`, after the word.
#[tactic(auto, unfolding(crate::specs::steps::Statements::reset_at, crate::specs::steps::Statements::stopped))]
pub fn reset_at<F: Fn(Ask) -> Result<Read<Tree>, Stop>>(
    deeper: &Below<'_, F>,
    renew: usize,
    left: usize,
    at: usize,
) -> Result<Read<StmtKind>, Stop>
    requires callable { F.IsAlwaysCallable deeper.now.read }
    requires exact { IsExact (F.post deeper.now.read) deeper.now.depth deeper.now.tokens.now }
    ensures { Gives (seen deeper.now.tokens.now) result
        (reset_at (below deeper.now.depth) renew left (drop at deeper.now.tokens.now)) }
{
    let Read { item, left, at } = operand_at(deeper, renew, left, at)?;
    let at = stopped(deeper.tokens, at)?;
    Ok(Read {
        item: StmtKind::Reset(item),
        left,
        at,
    })
}

/// A `barrier`, after the word.
#[tactic(auto, unfolding(crate::specs::steps::Statements::barrier_at, crate::specs::steps::Statements::stopped))]
pub fn barrier_at<F: Fn(Ask) -> Result<Read<Tree>, Stop>>(
    deeper: &Below<'_, F>,
    renew: usize,
    left: usize,
    at: usize,
) -> Result<Read<StmtKind>, Stop>
    requires callable { F.IsAlwaysCallable deeper.now.read }
    requires exact { IsExact (F.post deeper.now.read) deeper.now.depth deeper.now.tokens.now }
    ensures { Gives (seen deeper.now.tokens.now) result
        (barrier_at (below deeper.now.depth) renew left (drop at deeper.now.tokens.now)) }
{
    let Read { item, left, at } = acted_at(deeper, renew, left, at)?;
    let at = stopped(deeper.tokens, at)?;
    Ok(Read {
        item: StmtKind::Barrier(item),
        left,
        at,
    })
}

/// A `delay`, after the word.
#[tactic(auto, unfolding(crate::specs::steps::Statements::delay_at, crate::specs::steps::Statements::stopped))]
pub fn delay_at<F: Fn(Ask) -> Result<Read<Tree>, Stop>>(
    deeper: &Below<'_, F>,
    renew: usize,
    left: usize,
    at: usize,
) -> Result<Read<StmtKind>, Stop>
    requires callable { F.IsAlwaysCallable deeper.now.read }
    requires exact { IsExact (F.post deeper.now.read) deeper.now.depth deeper.now.tokens.now }
    ensures { Gives (seen deeper.now.tokens.now) result
        (delay_at (below deeper.now.depth) renew left (drop at deeper.now.tokens.now)) }
{
    let time = enclosed(deeper, "[", "]", renew, left, at)?;
    let Read { item, left, at } = operands_at(deeper, renew, time.left, time.at)?;
    let at = stopped(deeper.tokens, at)?;
    Ok(Read {
        item: StmtKind::Delay(time.item, item),
        left,
        at,
    })
}
