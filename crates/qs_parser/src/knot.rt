ghost use Rattle.std.specs.Prelude.{◌≡◌, List as PureList};
ghost use Rattle.qs_lexer.specs.declared.token.Token.{Token as TokenValue};
ghost use Rattle.qs_tree.specs.declared.expr.Expr.{Expr as ExprValue};
ghost use Rattle.qs_tree.specs.declared.statement.Stmt.{Stmt as StmtValue};
ghost use Rattle.qs_parser.specs.declared.below.Tree.TheVariants.{Expr as ExprTree, Stmt as StmtTree, Stmts as StmtsTree};
ghost use Rattle.qs_parser.specs.steps.Asking.{answered, as_tree, asked, seen};
ghost use Rattle.qs_parser.specs.steps.Knot.{below, readers};
ghost use Rattle.qs_parser.specs.steps.Tokens.{Gives, Reads};

use crate::below::{Ask, Below, Read, Tree, Wanted};
use crate::levels::{expr_at, unary};
use crate::statements::{block_at, nested_at, stmt_at};
use crate::stop::Stop;
use qs_lexer::Token;
use qs_tree::{Expr, Stmt};
use qs_values::{Boxed, List};
use std::alloc::Global;

/// Reads what is asked for, where so many constructs may still be open.
#[cycle(knot)]
pub fn read(alloc: Global, tokens: &[Token], depth: usize, ask: Ask) -> Result<Read<Tree>, Stop>
    ensures { Gives (seen tokens.now) result (asked (readers (below depth)) ask tokens.now) }
{
    let deeper = Below {
        alloc,
        tokens,
        depth,
        read: |ask: Ask| -> Result<Read<Tree>, Stop>
            ensures { Gives (seen tokens.entry.now) result
                (answered (below depth) ask tokens.entry.now) }
        {
            if depth == 0 {
                return Err(Stop::Unread);
            }
            read(alloc, tokens, depth - 1, ask)
        },
    };
    match ask.wanted {
        Wanted::Expression => expr_tree(alloc, expr_at(&deeper, ask.left, ask.at)),
        Wanted::Unary => expr_tree(alloc, unary(&deeper, ask.left, ask.at)),
        Wanted::Statement => stmt_tree(alloc, stmt_at(&deeper, ask.renew, ask.left, ask.at)),
        Wanted::Nested => stmt_tree(alloc, nested_at(&deeper, ask.renew, ask.left, ask.at)),
        Wanted::Block => stmts_tree(alloc, block_at(&deeper, ask.renew, ask.left, ask.at)),
    }
}

/// What stands one construct deeper, where so many constructs may be open.
pub fn answer_at(
    alloc: Global,
    tokens: &[Token],
    depth: usize,
    ask: Ask,
) -> Result<Read<Tree>, Stop>
    ensures { Gives (seen tokens.now) result (answered (below depth) ask tokens.now) }
{
    if depth == 0 {
        return Err(Stop::Unread);
    }
    read(alloc, tokens, depth - 1, ask)
}

/// An expression's tree in its box.
fn expr_tree(alloc: Global, read: Result<Read<Expr>, Stop>) -> Result<Read<Tree>, Stop>
    ensures { (tokens : PureList TokenValue) (account : Reads ExprValue)
        → Gives (seen tokens) read account → Gives (seen tokens) result (as_tree ExprTree account) }
{
    let Read { item, left, at } = read?;
    let item = Tree::Expr(Boxed::new(alloc, item)?);
    Ok(Read { item, left, at })
}

/// A statement's tree in its box.
fn stmt_tree(alloc: Global, read: Result<Read<Stmt>, Stop>) -> Result<Read<Tree>, Stop>
    ensures { (tokens : PureList TokenValue) (account : Reads StmtValue)
        → Gives (seen tokens) read account → Gives (seen tokens) result (as_tree StmtTree account) }
{
    let Read { item, left, at } = read?;
    let item = Tree::Stmt(Boxed::new(alloc, item)?);
    Ok(Read { item, left, at })
}

/// The statements of a block in their box.
fn stmts_tree(alloc: Global, read: Result<Read<List<Stmt>>, Stop>) -> Result<Read<Tree>, Stop>
    ensures { (tokens : PureList TokenValue) (account : Reads (PureList StmtValue))
        → Gives (seen tokens) read account
        → Gives (seen tokens) result (as_tree StmtsTree account) }
{
    let Read { item, left, at } = read?;
    let item = Tree::Stmts(Boxed::new(alloc, item)?);
    Ok(Read { item, left, at })
}
