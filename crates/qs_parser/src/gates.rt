ghost use Rattle.std.specs.Prelude.{◌≡◌, drop};
ghost use Rattle.qs_parser.specs.steps.Asking.{IsExact, answered, seen};
ghost use Rattle.qs_parser.specs.steps.Globals.{call_in, calls_at, gate_at, gate_params_at, ident_at, names_at};
ghost use Rattle.qs_parser.specs.steps.Knot.{below};
ghost use Rattle.qs_parser.specs.steps.Statements.{call_at};
ghost use Rattle.qs_parser.specs.steps.Tokens.{Gives};

use crate::below::{Ask, Below, Read, Tree};
use crate::calls::call_at;
use crate::knot::answer_at;
use crate::lists::{commas, up_to_brace};
use crate::parts::name_at;
use crate::stop::Stop;
use crate::tokens::{after_sign, begins_sign, past_sign};
use qs_lexer::Token;
use qs_tree::{Call, Ident, Stmt, StmtKind};
use qs_values::List;
use std::alloc::Global;

/// A name.
fn ident_at(alloc: Global, tokens: &[Token], left: usize, at: usize) -> Result<Read<Ident>, Stop>
    ensures { Gives (seen tokens.now) result (ident_at left (drop at tokens.now)) }
{
    let (item, at) = name_at(alloc, tokens, at)?;
    Ok(Read { item, left, at })
}

/// Names with commas between.
#[tactic(auto, unfolding(crate::specs::steps::Globals::names_at))]
pub fn names_at(
    alloc: Global,
    tokens: &[Token],
    left: usize,
    at: usize,
) -> Result<Read<List<Ident>>, Stop>
    ensures { Gives (seen tokens.now) result (names_at left (drop at tokens.now)) }
{
    commas(
        alloc,
        tokens,
        |left: usize, at: usize| ident_at(alloc, tokens, left, at),
        left,
        at,
    )
}

/// The names of parameters in brackets, where brackets stand there.
#[tactic(auto, unfolding(crate::specs::steps::Globals::gate_params_at, crate::specs::steps::Globals::names_to))]
fn gate_params_at(
    alloc: Global,
    tokens: &[Token],
    depth: usize,
    left: usize,
    at: usize,
) -> Result<Read<Option<List<Ident>>>, Stop>
    ensures { Gives (seen tokens.now) result (gate_params_at depth left (drop at tokens.now)) }
{
    if !begins_sign(tokens, at, "(") {
        return Ok(Read {
            item: None,
            left,
            at,
        });
    }
    let at = after_sign(tokens, at, "(")?;
    if depth == 0 {
        return Err(Stop::Unread);
    }
    if let Some(at) = past_sign(tokens, at, ")") {
        return Ok(Read {
            item: Some(List::new(alloc)),
            left,
            at,
        });
    }
    let Read { item, left, at } = names_at(alloc, tokens, left, at)?;
    let at = after_sign(tokens, at, ")")?;
    Ok(Read {
        item: Some(item),
        left,
        at,
    })
}

/// A call, where so many constructs may be open in it.
fn call_below(
    alloc: Global,
    tokens: &[Token],
    depth: usize,
    renew: usize,
    left: usize,
    at: usize,
) -> Result<Read<Call>, Stop>
    ensures { Gives (seen tokens.now) result
        (call_at (below depth) renew left (drop at tokens.now)) }
{
    let deeper = Below {
        alloc,
        tokens,
        depth,
        read: |ask: Ask| -> Result<Read<Tree>, Stop>
            ensures { Gives (seen tokens.entry.now) result
                (answered (below depth) ask tokens.entry.now) }
        { answer_at(alloc, tokens, depth, ask) },
    };
    call_at(&deeper, renew, left, at)
}

/// A call in the body of a gate, by the depth of the body.
#[tactic(auto, unfolding(crate::specs::steps::Globals::call_in))]
fn call_in(
    alloc: Global,
    tokens: &[Token],
    depth: usize,
    renew: usize,
    left: usize,
    at: usize,
) -> Result<Read<Stmt>, Stop>
    ensures { Gives (seen tokens.now) result (call_in depth renew left (drop at tokens.now)) }
{
    match tokens.get(at) {
        Some(token) => {
            if depth == 0 {
                return Err(Stop::Unread);
            }
            let Read { item, left, at } = call_below(alloc, tokens, depth - 1, renew, left, at)?;
            Ok(Read {
                item: Stmt {
                    span: token.span,
                    kind: StmtKind::GateCall(item),
                },
                left,
                at,
            })
        }
        None => Err(Stop::Unread),
    }
}

/// Calls in braces.
#[tactic(auto, unfolding(crate::specs::steps::Globals::calls_at))]
fn calls_at(
    alloc: Global,
    tokens: &[Token],
    depth: usize,
    renew: usize,
    left: usize,
    at: usize,
) -> Result<Read<List<Stmt>>, Stop>
    ensures { Gives (seen tokens.now) result (calls_at depth renew left (drop at tokens.now)) }
{
    let at = after_sign(tokens, at, "{")?;
    if depth == 0 {
        return Err(Stop::Unread);
    }
    up_to_brace(
        alloc,
        tokens,
        |left: usize, at: usize| call_in(alloc, tokens, depth - 1, renew, left, at),
        left,
        at,
    )
}

/// A definition of a gate, after the word.
#[tactic(auto, unfolding(crate::specs::steps::Globals::gate_at))]
pub fn gate_at(
    alloc: Global,
    tokens: &[Token],
    depth: usize,
    renew: usize,
    left: usize,
    at: usize,
) -> Result<Read<StmtKind>, Stop>
    ensures { Gives (seen tokens.now) result (gate_at depth renew left (drop at tokens.now)) }
{
    let (name, at) = name_at(alloc, tokens, at)?;
    let params = gate_params_at(alloc, tokens, depth, left, at)?;
    let qubits = names_at(alloc, tokens, params.left, params.at)?;
    let Read { item, left, at } = calls_at(alloc, tokens, depth, renew, qubits.left, qubits.at)?;
    Ok(Read {
        item: StmtKind::Gate(name, params.item, qubits.item, item),
        left,
        at,
    })
}
