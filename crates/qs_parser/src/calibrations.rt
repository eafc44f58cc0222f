ghost use Rattle.std.specs.Prelude.{◌≡◌, codes, drop};
ghost use Rattle.qs_parser.specs.steps.Asking.{IsExact, after_it, answered, seen};
ghost use Rattle.qs_parser.specs.steps.Globals.{cal_at, cal_name_at, cal_params_at, defcal_at, fixed_at, free_at, gives_at, param_at, params_to};
ghost use Rattle.qs_parser.specs.steps.Knot.{below};
ghost use Rattle.qs_parser.specs.steps.Statements.{operands_at};
ghost use Rattle.qs_parser.specs.steps.Tokens.{Gives, after_sign};

use crate::below::{Ask, Below, Read, Tree};
use crate::items::items_at;
use crate::knot::answer_at;
use crate::levels::whole_at;
use crate::lists::commas;
use crate::parts::{name_at, operands_at, type_at};
use crate::stop::Stop;
use crate::tokens::{after_sign, after_word, begins_sign, past_sign, past_word};
use qs_lexer::Token;
use qs_tree::{CalName, Operand, Param, StmtKind};
use qs_values::List;
use std::alloc::Global;

/// A `cal`, after the word.
#[tactic(auto, unfolding(crate::specs::steps::Globals::cal_at))]
pub fn cal_at(
    alloc: Global,
    tokens: &[Token],
    depth: usize,
    renew: usize,
    left: usize,
    at: usize,
) -> Result<Read<StmtKind>, Stop>
    ensures { Gives (seen tokens.now) result (cal_at depth renew left (drop at tokens.now)) }
{
    let Read { item, left, at } = items_at(alloc, tokens, depth, renew, left, at)?;
    Ok(Read {
        item: StmtKind::Cal(item),
        left,
        at,
    })
}

/// What a calibration is given for, and the place after it.
#[tactic(auto, unfolding(crate::specs::steps::Globals::cal_name_at))]
fn cal_name_at(alloc: Global, tokens: &[Token], at: usize) -> Result<(CalName, usize), Stop>
    ensures { Gives (after_it tokens.now) result (cal_name_at (drop at tokens.now)) }
{
    if let Some(at) = past_word(tokens, at, "measure") {
        return Ok((CalName::Measure, at));
    }
    if let Some(at) = past_word(tokens, at, "reset") {
        return Ok((CalName::Reset, at));
    }
    let (name, at) = name_at(alloc, tokens, at)?;
    Ok((CalName::Gate(name), at))
}

/// A parameter that takes any argument: a type and a name.
#[tactic(auto, unfolding(crate::specs::steps::Globals::free_at))]
fn free_at<F: Fn(Ask) -> Result<Read<Tree>, Stop>>(
    deeper: &Below<'_, F>,
    renew: usize,
    left: usize,
    at: usize,
) -> Result<Read<Param>, Stop>
    requires callable { F.IsAlwaysCallable deeper.now.read }
    requires exact { IsExact (F.post deeper.now.read) deeper.now.depth deeper.now.tokens.now }
    ensures { Gives (seen deeper.now.tokens.now) result
        (free_at (below deeper.now.depth) renew left (drop at deeper.now.tokens.now)) }
{
    let type_expr = type_at(deeper, renew, left, at)?;
    let (name, at) = name_at(deeper.alloc, deeper.tokens, type_expr.at)?;
    Ok(Read {
        item: Param::Free(type_expr.item, name),
        left: type_expr.left,
        at,
    })
}

/// A parameter that is a constant.
#[tactic(auto, unfolding(crate::specs::steps::Globals::fixed_at))]
fn fixed_at<F: Fn(Ask) -> Result<Read<Tree>, Stop>>(
    deeper: &Below<'_, F>,
    renew: usize,
    left: usize,
    at: usize,
) -> Result<Read<Param>, Stop>
    requires callable { F.IsAlwaysCallable deeper.now.read }
    requires exact { IsExact (F.post deeper.now.read) deeper.now.depth deeper.now.tokens.now }
    ensures { Gives (seen deeper.now.tokens.now) result
        (fixed_at (below deeper.now.depth) renew left (drop at deeper.now.tokens.now)) }
{
    let Read { item, left, at } = whole_at(deeper, renew, left, at)?;
    Ok(Read {
        item: Param::Fixed(item),
        left,
        at,
    })
}

/// A parameter: a type and a name, or where these don't stand a constant.
#[tactic(auto, unfolding(crate::specs::steps::Globals::param_at))]
fn param_at<F: Fn(Ask) -> Result<Read<Tree>, Stop>>(
    deeper: &Below<'_, F>,
    renew: usize,
    left: usize,
    at: usize,
) -> Result<Read<Param>, Stop>
    requires callable { F.IsAlwaysCallable deeper.now.read }
    requires exact { IsExact (F.post deeper.now.read) deeper.now.depth deeper.now.tokens.now }
    ensures { Gives (seen deeper.now.tokens.now) result
        (param_at (below deeper.now.depth) renew left (drop at deeper.now.tokens.now)) }
{
    match free_at(deeper, renew, left, at) {
        Ok(read) => Ok(read),
        Err(Stop::Unread) => fixed_at(deeper, renew, left, at),
        Err(Stop::Memory) => Err(Stop::Memory),
    }
}

/// Parameters up to a closing bracket, or the bracket alone.
#[tactic(auto, unfolding(crate::specs::steps::Globals::params_to))]
fn params_to<F: Fn(Ask) -> Result<Read<Tree>, Stop>>(
    deeper: &Below<'_, F>,
    renew: usize,
    left: usize,
    at: usize,
) -> Result<Read<Option<List<Param>>>, Stop>
    requires callable { F.IsAlwaysCallable deeper.now.read }
    requires exact { IsExact (F.post deeper.now.read) deeper.now.depth deeper.now.tokens.now }
    ensures { Gives (seen deeper.now.tokens.now) result
        (params_to (after_sign (codes ")") (drop at deeper.now.tokens.now))
        (below deeper.now.depth) renew left (drop at deeper.now.tokens.now)) }
{
    if let Some(at) = past_sign(deeper.tokens, at, ")") {
        return Ok(Read {
            item: Some(List::new(deeper.alloc)),
            left,
            at,
        });
    }
    let Read { item, left, at } = commas(
        deeper.alloc,
        deeper.tokens,
        |left: usize, at: usize| param_at(deeper, renew, left, at),
        left,
        at,
    )?;
    let at = after_sign(deeper.tokens, at, ")")?;
    Ok(Read {
        item: Some(item),
        left,
        at,
    })
}

/// Parameters up to a closing bracket, where so many constructs may be open in them.
fn params_below(
    alloc: Global,
    tokens: &[Token],
    depth: usize,
    renew: usize,
    left: usize,
    at: usize,
) -> Result<Read<Option<List<Param>>>, Stop>
    ensures { Gives (seen tokens.now) result
        (params_to (after_sign (codes ")") (drop at tokens.now)) (below depth) renew left
        (drop at tokens.now)) }
{
    let deeper = Below {
        alloc,
        tokens,
        depth,
        read: |ask: Ask| -> Result<Read<Tree>, Stop>
            ensures { Gives (seen tokens.entry.now) result
                (answered (below depth) ask tokens.entry.now) }
        { answer_at(alloc, tokens, depth, ask) },
    };
    params_to(&deeper, renew, left, at)
}

/// Parameters in brackets, where brackets stand there.
#[tactic(auto, unfolding(crate::specs::steps::Globals::cal_params_at))]
fn cal_params_at(
    alloc: Global,
    tokens: &[Token],
    depth: usize,
    renew: usize,
    left: usize,
    at: usize,
) -> Result<Read<Option<List<Param>>>, Stop>
    ensures { Gives (seen tokens.now) result (cal_params_at depth renew left (drop at tokens.now)) }
{
    if !begins_sign(tokens, at, "(") {
        return Ok(Read {
            item: None,
            left,
            at,
        });
    }
    let at = after_sign(tokens, at, "(")?;
    if depth == 0 {
        return Err(Stop::Unread);
    }
    params_below(alloc, tokens, depth - 1, renew, left, at)
}

/// Whether a bit is given.
#[tactic(auto, unfolding(crate::specs::steps::Globals::gives_at))]
fn gives_at(tokens: &[Token], left: usize, at: usize) -> Result<Read<bool>, Stop>
    ensures { Gives (seen tokens.now) result (gives_at left (drop at tokens.now)) }
{
    match past_sign(tokens, at, "->") {
        None => Ok(Read {
            item: false,
            left,
            at,
        }),
        Some(at) => {
            let at = after_word(tokens, at, "bit")?;
            Ok(Read {
                item: true,
                left,
                at,
            })
        }
    }
}

/// A `defcal`, after the word.
#[tactic(auto, unfolding(crate::specs::steps::Globals::defcal_at))]
pub fn defcal_at(
    alloc: Global,
    tokens: &[Token],
    depth: usize,
    renew: usize,
    left: usize,
    at: usize,
) -> Result<Read<StmtKind>, Stop>
    ensures { Gives (seen tokens.now) result (defcal_at depth renew left (drop at tokens.now)) }
{
    let (name, at) = cal_name_at(alloc, tokens, at)?;
    let params = cal_params_at(alloc, tokens, depth, renew, left, at)?;
    let operands = operands_below(alloc, tokens, depth, renew, params.left, params.at)?;
    let gives = gives_at(tokens, operands.left, operands.at)?;
    let Read { item, left, at } = items_at(alloc, tokens, depth, renew, gives.left, gives.at)?;
    Ok(Read {
        item: StmtKind::Defcal(name, params.item, operands.item, gives.item, item),
        left,
        at,
    })
}

/// What a calibration acts on.
fn operands_below(
    alloc: Global,
    tokens: &[Token],
    depth: usize,
    renew: usize,
    left: usize,
    at: usize,
) -> Result<Read<List<Operand>>, Stop>
    ensures { Gives (seen tokens.now) result
        (operands_at (below depth) renew left (drop at tokens.now)) }
{
    let deeper = Below {
        alloc,
        tokens,
        depth,
        read: |ask: Ask| -> Result<Read<Tree>, Stop>
            ensures { Gives (seen tokens.entry.now) result
                (answered (below depth) ask tokens.entry.now) }
        { answer_at(alloc, tokens, depth, ask) },
    };
    operands_at(&deeper, renew, left, at)
}
