ghost use Rattle.std.specs.Prelude.{◌≡◌, drop};
ghost use Rattle.qs_parser.specs.steps.Asking.{IsExact, after_it, seen};
ghost use Rattle.qs_parser.specs.steps.Globals.{defcalgrammar_at, include_at, input_at, output_at, qubit_at, quoted_at};
ghost use Rattle.qs_parser.specs.steps.Knot.{below};
ghost use Rattle.qs_parser.specs.steps.Tokens.{Gives};

use crate::below::{Ask, Below, Read, Tree};
use crate::parts::{bracket_at, name_at, stopped, type_at};
use crate::stop::Stop;
use qs_lexer::{Token, TokenKind};
use qs_tree::StmtKind;
use qs_values::Name;
use std::alloc::Global;

/// A text with its quotes, and the place after it.
fn quoted_at(alloc: Global, tokens: &[Token], at: usize) -> Result<(Name, usize), Stop>
    ensures { Gives (after_it tokens.now) result (quoted_at (drop at tokens.now)) }
{
    match tokens.get(at) {
        Some(token) => {
            let _count = tokens.len();
            match token.kind {
                TokenKind::Text => Ok((Name::copy_of(alloc, token.text.as_str())?, at + 1)),
                _ => Err(Stop::Unread),
            }
        }
        None => Err(Stop::Unread),
    }
}

/// An `include`, after the word.
#[tactic(auto, unfolding(crate::specs::steps::Globals::include_at, crate::specs::steps::Statements::stopped))]
pub fn include_at(
    alloc: Global,
    tokens: &[Token],
    left: usize,
    at: usize,
) -> Result<Read<StmtKind>, Stop>
    ensures { Gives (seen tokens.now) result (include_at left (drop at tokens.now)) }
{
    let (text, at) = quoted_at(alloc, tokens, at)?;
    let at = stopped(tokens, at)?;
    Ok(Read {
        item: StmtKind::Include(text),
        left,
        at,
    })
}

/// A `defcalgrammar`, after the word.
#[tactic(auto, unfolding(crate::specs::steps::Globals::defcalgrammar_at, crate::specs::steps::Statements::stopped))]
pub fn defcalgrammar_at(
    alloc: Global,
    tokens: &[Token],
    left: usize,
    at: usize,
) -> Result<Read<StmtKind>, Stop>
    ensures { Gives (seen tokens.now) result (defcalgrammar_at left (drop at tokens.now)) }
{
    let (text, at) = quoted_at(alloc, tokens, at)?;
    let at = stopped(tokens, at)?;
    Ok(Read {
        item: StmtKind::DefcalGrammar(text),
        left,
        at,
    })
}

/// A declaration of qubits, after the word.
#[tactic(auto, unfolding(crate::specs::steps::Globals::qubit_at, crate::specs::steps::Statements::stopped))]
pub fn qubit_at<F: Fn(Ask) -> Result<Read<Tree>, Stop>>(
    deeper: &Below<'_, F>,
    renew: usize,
    left: usize,
    at: usize,
) -> Result<Read<StmtKind>, Stop>
    requires callable { F.IsAlwaysCallable deeper.now.read }
    requires exact { IsExact (F.post deeper.now.read) deeper.now.depth deeper.now.tokens.now }
    ensures { Gives (seen deeper.now.tokens.now) result
        (qubit_at (below deeper.now.depth) renew left (drop at deeper.now.tokens.now)) }
{
    let size = bracket_at(deeper, renew, left, at)?;
    let (name, at) = name_at(deeper.alloc, deeper.tokens, size.at)?;
    let at = stopped(deeper.tokens, at)?;
    Ok(Read {
        item: StmtKind::Qubit(size.item, name),
        left: size.left,
        at,
    })
}

/// An `input`, after the word.
#[tactic(auto, unfolding(crate::specs::steps::Globals::input_at, crate::specs::steps::Statements::stopped))]
pub fn input_at<F: Fn(Ask) -> Result<Read<Tree>, Stop>>(
    deeper: &Below<'_, F>,
    renew: usize,
    left: usize,
    at: usize,
) -> Result<Read<StmtKind>, Stop>
    requires callable { F.IsAlwaysCallable deeper.now.read }
    requires exact { IsExact (F.post deeper.now.read) deeper.now.depth deeper.now.tokens.now }
    ensures { Gives (seen deeper.now.tokens.now) result
        (input_at (below deeper.now.depth) renew left (drop at deeper.now.tokens.now)) }
{
    let type_expr = type_at(deeper, renew, left, at)?;
    let (name, at) = name_at(deeper.alloc, deeper.tokens, type_expr.at)?;
    let at = stopped(deeper.tokens, at)?;
    Ok(Read {
        item: StmtKind::Input(type_expr.item, name),
        left: type_expr.left,
        at,
    })
}

/// An `output`, after the word.
#[tactic(auto, unfolding(crate::specs::steps::Globals::output_at, crate::specs::steps::Statements::stopped))]
pub fn output_at<F: Fn(Ask) -> Result<Read<Tree>, Stop>>(
    deeper: &Below<'_, F>,
    renew: usize,
    left: usize,
    at: usize,
) -> Result<Read<StmtKind>, Stop>
    requires callable { F.IsAlwaysCallable deeper.now.read }
    requires exact { IsExact (F.post deeper.now.read) deeper.now.depth deeper.now.tokens.now }
    ensures { Gives (seen deeper.now.tokens.now) result
        (output_at (below deeper.now.depth) renew left (drop at deeper.now.tokens.now)) }
{
    let type_expr = type_at(deeper, renew, left, at)?;
    let (name, at) = name_at(deeper.alloc, deeper.tokens, type_expr.at)?;
    let at = stopped(deeper.tokens, at)?;
    Ok(Read {
        item: StmtKind::Output(type_expr.item, name),
        left: type_expr.left,
        at,
    })
}
