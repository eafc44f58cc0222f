ghost use Rattle.std.specs.Prelude.{◌≡◌, drop, List as PureList};
ghost use Rattle.qs_lexer.specs.declared.token.Token.{Token as TokenValue};
ghost use Rattle.qs_tree.specs.declared.expr.Expr.{Expr as ExprValue};
ghost use Rattle.qs_tree.specs.declared.statement.Stmt.{Stmt as StmtValue};
ghost use Rattle.qs_parser.specs.declared.below.Tree.TheVariants.{Expr as ExprTree, Stmt as StmtTree, Stmts as StmtsTree};
ghost use Rattle.qs_parser.specs.steps.Asking.{IsExact, answered, as_tree, deeper_block, deeper_expr, deeper_nested, deeper_stmt, deeper_unary, deeper_whole, seen};
ghost use Rattle.qs_parser.specs.steps.Knot.{below};
ghost use Rattle.qs_parser.specs.steps.Tokens.{Gives, Reads};

use crate::stop::Stop;
use qs_lexer::Token;
use qs_tree::{Expr, Stmt};
use qs_values::{Boxed, List};
use std::alloc::Global;

/// What was read, how many operators may still come, and the place of the next token.
#[derive(Drop)]
pub struct Read<T> {
    pub item: T,
    pub left: usize,
    pub at: usize,
}

/// Which reader is asked.
#[derive(Clone, Copy, Debug, PartialEq, Eq)]
pub enum Wanted {
    Expression,
    Unary,
    Statement,
    Nested,
    Block,
}

/// What is asked one construct deeper: what to read, how many operators may come in an expression
/// at least and in this one, and the place of its first token.
#[derive(Clone, Copy, Debug, PartialEq, Eq)]
pub struct Ask {
    pub wanted: Wanted,
    pub renew: usize,
    pub left: usize,
    pub at: usize,
}

/// What is answered.
#[derive(Drop)]
pub enum Tree {
    Expr(Boxed<Expr>),
    Stmt(Boxed<Stmt>),
    Stmts(Boxed<List<Stmt>>),
}

/// What a reader stands on: the tokens, how many constructs may still be open, and a reader of what
/// stands one construct deeper.
#[derive(Drop)]
pub struct Below<'a, F> {
    pub alloc: Global,
    pub tokens: &'a [Token],
    pub depth: usize,
    pub read: F,
}

/// The expression of an answer.
fn as_expr(answer: Result<Read<Tree>, Stop>) -> Result<Read<Expr>, Stop>
    ensures { (tokens : PureList TokenValue) (account : Reads ExprValue)
        → Gives (seen tokens) answer (as_tree ExprTree account)
        → Gives (seen tokens) result account }
{
    let Read { item, left, at } = answer?;
    match item {
        Tree::Expr(e) => Ok(Read {
            item: e.into_inner(),
            left,
            at,
        }),
        Tree::Stmt(_) => Err(Stop::Unread),
        Tree::Stmts(_) => Err(Stop::Unread),
    }
}

/// The statement of an answer.
fn as_stmt(answer: Result<Read<Tree>, Stop>) -> Result<Read<Stmt>, Stop>
    ensures { (tokens : PureList TokenValue) (account : Reads StmtValue)
        → Gives (seen tokens) answer (as_tree StmtTree account)
        → Gives (seen tokens) result account }
{
    let Read { item, left, at } = answer?;
    match item {
        Tree::Stmt(s) => Ok(Read {
            item: s.into_inner(),
            left,
            at,
        }),
        Tree::Expr(_) => Err(Stop::Unread),
        Tree::Stmts(_) => Err(Stop::Unread),
    }
}

/// The statements of an answer.
fn as_stmts(answer: Result<Read<Tree>, Stop>) -> Result<Read<List<Stmt>>, Stop>
    ensures { (tokens : PureList TokenValue) (account : Reads (PureList StmtValue))
        → Gives (seen tokens) answer (as_tree StmtsTree account)
        → Gives (seen tokens) result account }
{
    let Read { item, left, at } = answer?;
    match item {
        Tree::Stmts(ss) => Ok(Read {
            item: ss.into_inner(),
            left,
            at,
        }),
        Tree::Expr(_) => Err(Stop::Unread),
        Tree::Stmt(_) => Err(Stop::Unread),
    }
}

impl<'a, F: Fn(Ask) -> Result<Read<Tree>, Stop>> Below<'a, F> {
    /// The answer one construct deeper, where there may be one.
    fn answer(&self, ask: Ask) -> Result<Read<Tree>, Stop>
        requires callable { F.IsAlwaysCallable self.now.read }
        requires exact { IsExact (F.post self.now.read) self.now.depth self.now.tokens.now }
        ensures { Gives (seen self.now.tokens.now) result
            (answered (below self.now.depth) ask self.now.tokens.now) }
    {
        if self.depth == 0 {
            return Err(Stop::Unread);
        }
        (self.read)(ask)
    }

    /// An expression one construct deeper.
    pub fn expr(&self, left: usize, at: usize) -> Result<Read<Expr>, Stop>
        requires callable { F.IsAlwaysCallable self.now.read }
        requires exact { IsExact (F.post self.now.read) self.now.depth self.now.tokens.now }
        ensures { Gives (seen self.now.tokens.now) result
            (deeper_expr (below self.now.depth) left (drop at self.now.tokens.now)) }
    {
        as_expr(self.answer(Ask {
            wanted: Wanted::Expression,
            renew: 0,
            left,
            at,
        }))
    }

    /// An expression one construct deeper, after which so many operators may come at least.
    pub fn whole(&self, renew: usize, left: usize, at: usize) -> Result<Read<Expr>, Stop>
        requires callable { F.IsAlwaysCallable self.now.read }
        requires exact { IsExact (F.post self.now.read) self.now.depth self.now.tokens.now }
        ensures { Gives (seen self.now.tokens.now) result
            (deeper_whole (below self.now.depth) renew left (drop at self.now.tokens.now)) }
    {
        let Read { item, left, at } = self.expr(left, at)?;
        let left = left.max(renew);
        Ok(Read { item, left, at })
    }

    /// An operand with operators before it, one construct deeper.
    pub fn unary(&self, left: usize, at: usize) -> Result<Read<Expr>, Stop>
        requires callable { F.IsAlwaysCallable self.now.read }
        requires exact { IsExact (F.post self.now.read) self.now.depth self.now.tokens.now }
        ensures { Gives (seen self.now.tokens.now) result
            (deeper_unary (below self.now.depth) left (drop at self.now.tokens.now)) }
    {
        as_expr(self.answer(Ask {
            wanted: Wanted::Unary,
            renew: 0,
            left,
            at,
        }))
    }

    /// A statement that may have one construct more around it.
    pub fn stmt(&self, renew: usize, left: usize, at: usize) -> Result<Read<Stmt>, Stop>
        requires callable { F.IsAlwaysCallable self.now.read }
        requires exact { IsExact (F.post self.now.read) self.now.depth self.now.tokens.now }
        ensures { Gives (seen self.now.tokens.now) result
            (deeper_stmt (below self.now.depth) renew left (drop at self.now.tokens.now)) }
    {
        as_stmt(self.answer(Ask {
            wanted: Wanted::Statement,
            renew,
            left,
            at,
        }))
    }

    /// A statement of a block.
    pub fn nested(&self, renew: usize, left: usize, at: usize) -> Result<Read<Stmt>, Stop>
        requires callable { F.IsAlwaysCallable self.now.read }
        requires exact { IsExact (F.post self.now.read) self.now.depth self.now.tokens.now }
        ensures { Gives (seen self.now.tokens.now) result
            (deeper_nested (below self.now.depth) renew left (drop at self.now.tokens.now)) }
    {
        as_stmt(self.answer(Ask {
            wanted: Wanted::Nested,
            renew,
            left,
            at,
        }))
    }

    /// Statements in braces, one construct deeper.
    pub fn block(&self, renew: usize, left: usize, at: usize) -> Result<Read<List<Stmt>>, Stop>
        requires callable { F.IsAlwaysCallable self.now.read }
        requires exact { IsExact (F.post self.now.read) self.now.depth self.now.tokens.now }
        ensures { Gives (seen self.now.tokens.now) result
            (deeper_block (below self.now.depth) renew left (drop at self.now.tokens.now)) }
    {
        as_stmts(self.answer(Ask {
            wanted: Wanted::Block,
            renew,
            left,
            at,
        }))
    }
}
