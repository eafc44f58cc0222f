ghost use Rattle.std.specs.Prelude.{◌≡◌, drop};
ghost use Rattle.qs_parser.specs.steps.Asking.{IsExact, after_it, seen};
ghost use Rattle.qs_parser.specs.steps.Knot.{below};
ghost use Rattle.qs_parser.specs.steps.Tokens.{Gives};
ghost use Rattle.qs_parser.specs.steps.Statements.{assign_op, assign_op_at, assigned, assignment_at, is_assigned, updated};

use crate::below::{Ask, Below, Read, Tree};
use crate::levels::whole_at;
use crate::parts::{place_at, stopped, value_at};
use crate::stop::Stop;
use crate::tokens::past_sign;
use qs_lexer::{Token, TokenKind};
use qs_tree::{AssignOp, Place, StmtKind};

/// The operator of a sign that assigns.
fn assign_op(text: &str) -> Option<AssignOp>
    ensures { result ≡ assign_op text.now }
{
    match text {
        "+=" => Some(AssignOp::Add),
        "-=" => Some(AssignOp::Sub),
        "*=" => Some(AssignOp::Mul),
        "/=" => Some(AssignOp::Div),
        "%=" => Some(AssignOp::Rem),
        "&=" => Some(AssignOp::BitAnd),
        "|=" => Some(AssignOp::BitOr),
        "^=" => Some(AssignOp::BitXor),
        "<<=" => Some(AssignOp::ShiftLeft),
        ">>=" => Some(AssignOp::ShiftRight),
        _ => None,
    }
}

/// An operator that assigns, and the place after it.
fn assign_op_at(tokens: &[Token], at: usize) -> Result<(AssignOp, usize), Stop>
    ensures { Gives (after_it tokens.now) result (assign_op_at (drop at tokens.now)) }
{
    match tokens.get(at) {
        Some(token) => {
            let _count = tokens.len();
            match token.kind {
                TokenKind::Sign => match assign_op(token.text.as_str()) {
                    Some(op) => Ok((op, at + 1)),
                    None => Err(Stop::Unread),
                },
                _ => Err(Stop::Unread),
            }
        }
        None => Err(Stop::Unread),
    }
}

/// What is assigned, after the `=`.
#[tactic(auto, unfolding(crate::specs::steps::Statements::assigned, crate::specs::steps::Statements::stopped))]
fn assigned<F: Fn(Ask) -> Result<Read<Tree>, Stop>>(
    deeper: &Below<'_, F>,
    place: Place,
    renew: usize,
    left: usize,
    at: usize,
) -> Result<Read<StmtKind>, Stop>
    requires callable { F.IsAlwaysCallable deeper.now.read }
    requires exact { IsExact (F.post deeper.now.read) deeper.now.depth deeper.now.tokens.now }
    ensures { Gives (seen deeper.now.tokens.now) result
        (assigned (below deeper.now.depth) place renew left (drop at deeper.now.tokens.now)) }
{
    let Read { item, left, at } = value_at(deeper, renew, left, at)?;
    let at = stopped(deeper.tokens, at)?;
    Ok(Read {
        item: StmtKind::Assign(place, item),
        left,
        at,
    })
}

/// An operator that assigns and its expression, after the place.
#[tactic(auto, unfolding(crate::specs::steps::Statements::updated, crate::specs::steps::Statements::stopped))]
fn updated<F: Fn(Ask) -> Result<Read<Tree>, Stop>>(
    deeper: &Below<'_, F>,
    place: Place,
    renew: usize,
    left: usize,
    at: usize,
) -> Result<Read<StmtKind>, Stop>
    requires callable { F.IsAlwaysCallable deeper.now.read }
    requires exact { IsExact (F.post deeper.now.read) deeper.now.depth deeper.now.tokens.now }
    ensures { Gives (seen deeper.now.tokens.now) result
        (updated (below deeper.now.depth) place renew left (drop at deeper.now.tokens.now)) }
{
    let (op, at) = assign_op_at(deeper.tokens, at)?;
    let Read { item, left, at } = whole_at(deeper, renew, left, at)?;
    let at = stopped(deeper.tokens, at)?;
    Ok(Read {
        item: StmtKind::Update(place, op, item),
        left,
        at,
    })
}

/// An assignment.
#[tactic(auto, unfolding(crate::specs::steps::Statements::assignment_at))]
pub fn assignment_at<F: Fn(Ask) -> Result<Read<Tree>, Stop>>(
    deeper: &Below<'_, F>,
    renew: usize,
    left: usize,
    at: usize,
) -> Result<Read<StmtKind>, Stop>
    requires callable { F.IsAlwaysCallable deeper.now.read }
    requires exact { IsExact (F.post deeper.now.read) deeper.now.depth deeper.now.tokens.now }
    ensures { Gives (seen deeper.now.tokens.now) result
        (assignment_at (below deeper.now.depth) renew left (drop at deeper.now.tokens.now)) }
{
    let Read { item, left, at } = place_at(deeper, renew, left, at)?;
    match past_sign(deeper.tokens, at, "=") {
        Some(rest) => assigned(deeper, item, renew, left, rest),
        None => updated(deeper, item, renew, left, at),
    }
}

/// Whether what stands after a name makes it a place that is assigned to.
pub fn is_assigned(tokens: &[Token], at: usize) -> bool
    ensures { result ≡ is_assigned (drop at tokens.now) }
{
    match tokens.get(at) {
        Some(token) => match token.kind {
            TokenKind::Sign => match assign_op(token.text.as_str()) {
                Some(_) => true,
                None => token.text.as_str() == "=" || token.text.as_str() == "[",
            },
            _ => false,
        },
        None => false,
    }
}
