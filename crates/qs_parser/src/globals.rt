ghost use Rattle.std.specs.Prelude.{◌≡◌, drop};
ghost use Rattle.qs_parser.specs.steps.Asking.{GivesIf, IsExact, after_it, answered, seen};
ghost use Rattle.qs_parser.specs.steps.Globals.{statement_at, top_of};
ghost use Rattle.qs_parser.specs.steps.Knot.{below};
ghost use Rattle.qs_parser.specs.steps.Statements.{stmt_at};
ghost use Rattle.qs_parser.specs.steps.Tokens.{Gives};

use crate::below::{Ask, Below, Read, Tree};
use crate::calibrations::{cal_at, defcal_at};
use crate::gates::gate_at;
use crate::inputs::{defcalgrammar_at, include_at, input_at, output_at, qubit_at};
use crate::knot::answer_at;
use crate::statements::stmt_at;
use crate::stop::Stop;
use qs_lexer::{Token, TokenKind};
use qs_tree::{Stmt, StmtKind};
use std::alloc::Global;

/// A statement that may stand anywhere, where so many constructs may be open in it.
fn stmt_below(
    alloc: Global,
    tokens: &[Token],
    depth: usize,
    renew: usize,
    left: usize,
    at: usize,
) -> Result<Read<Stmt>, Stop>
    ensures { Gives (seen tokens.now) result
        (stmt_at (below depth) renew left (drop at tokens.now)) }
{
    let deeper = Below {
        alloc,
        tokens,
        depth,
        read: |ask: Ask| -> Result<Read<Tree>, Stop>
            ensures { Gives (seen tokens.entry.now) result
                (answered (below depth) ask tokens.entry.now) }
        { answer_at(alloc, tokens, depth, ask) },
    };
    stmt_at(&deeper, renew, left, at)
}

/// What a statement is that stands at the top alone, by the word that it begins with and the place after the word; `None` where another word stands there.
#[tactic(auto, unfolding(crate::specs::steps::Globals::top_of))]
fn top_of(
    alloc: Global,
    tokens: &[Token],
    depth: usize,
    renew: usize,
    left: usize,
    text: &str,
    at: usize,
) -> Option<Result<Read<StmtKind>, Stop>>
    ensures { GivesIf (seen tokens.now) result
        (top_of depth renew left text.now (drop at tokens.now)) }
{
    let deeper = Below {
        alloc,
        tokens,
        depth,
        read: |ask: Ask| -> Result<Read<Tree>, Stop>
            ensures { Gives (seen tokens.entry.now) result
                (answered (below depth) ask tokens.entry.now) }
        { answer_at(alloc, tokens, depth, ask) },
    };
    match text {
        "include" => Some(include_at(alloc, tokens, left, at)),
        "defcalgrammar" => Some(defcalgrammar_at(alloc, tokens, left, at)),
        "qubit" => Some(qubit_at(&deeper, renew, left, at)),
        "input" => Some(input_at(&deeper, renew, left, at)),
        "output" => Some(output_at(&deeper, renew, left, at)),
        "gate" => Some(gate_at(alloc, tokens, depth, renew, left, at)),
        "cal" => Some(cal_at(alloc, tokens, depth, renew, left, at)),
        "defcal" => Some(defcal_at(alloc, tokens, depth, renew, left, at)),
        _ => None,
    }
}

/// A statement at the top of a source, within so much depth and so many operators an expression, and the place after it.
#[tactic(auto, unfolding(crate::specs::steps::Globals::statement_at))]
pub fn statement_at(
    alloc: Global,
    tokens: &[Token],
    depth: usize,
    limit: usize,
    at: usize,
) -> Result<(Stmt, usize), Stop>
    ensures { Gives (after_it tokens.now) result (statement_at depth limit (drop at tokens.now)) }
{
    match tokens.get(at) {
        Some(token) => {
            let _count = tokens.len();
            match token.kind {
                TokenKind::Word => match top_of(
                    alloc,
                    tokens,
                    depth,
                    limit,
                    limit,
                    token.text.as_str(),
                    at + 1,
                ) {
                    Some(read) => {
                        let read = read?;
                        Ok((
                            Stmt {
                                span: token.span,
                                kind: read.item,
                            },
                            read.at,
                        ))
                    }
                    None => {
                        let read = stmt_below(alloc, tokens, depth, limit, limit, at)?;
                        Ok((read.item, read.at))
                    }
                },
                _ => Err(Stop::Unread),
            }
        }
        None => Err(Stop::Unread),
    }
}
