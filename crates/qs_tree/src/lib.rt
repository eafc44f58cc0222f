//! The trees of a source: statements and expressions as OpenQASM 3.0 writes them, and the constants
//! that expressions may name.
#![tactic(auto)]

mod assign;
mod constant;
mod copies;
mod expr;
mod gate;
mod keys;
mod name;
mod operand;
mod operator;
mod pulse;
mod reading;
mod replacement;
mod source;
mod statement;
mod substitution;
mod text;

pub use assign::AssignOp;
pub use constant::{Const, ConstTable, ConstVal, Consts, Digits};
pub use expr::{Expr, ExprKind, TypeExpr, TypeWord};
pub use gate::{Call, Modifier};
pub use name::Ident;
pub use operand::{Operand, Place, Value};
pub use operator::{BinOp, UnOp};
pub use pulse::{CalName, Item, Param};
pub use reading::{Variables, expr_reads};
pub use replacement::{Replacement, ReplacementTable, Replacing, Unchanged, expr_copied};
pub use source::Source;
pub use statement::{Body, Range, Stmt, StmtKind};
pub use substitution::substituted;
pub use text::bits_of;
