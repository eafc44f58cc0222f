ghost use Rattle.std.specs.Prelude.{◌≡◌, IfOk};
ghost use Rattle.qs_tree.specs.Substitution.{name_or};

use crate::expr::{Expr, ExprKind};
use crate::keys::put_first;
use crate::substitution::{kind_substituted, substituted};
use qs_values::Name;
use std::alloc::{AllocError, Global};
use std::collections::HashMap;

/// What is put in for names.
pub trait Replacing {
    ghost use Rattle.std.specs.Prelude.{◌≡◌, ℕ, List, Option, IfOk};
    ghost use Rattle.qs_tree.specs.declared.expr.ExprKind.{ExprKind};
    ghost use Rattle.qs_tree.specs.Substitution.{at_name, renamed};

    ghost put_in: { Self → List ℕ → Option ExprKind };

    /// What stands at a name; an error where memory runs out.
    fn at_name(&self, alloc: Global, name: &str) -> Result<ExprKind, AllocError>
        ensures { IfOk result (λ kind. kind ≡ at_name (put_in self.now) name.now) };

    /// The name that stands before an index and at a place: another one where a name is put in, and
    /// else the same; an error where memory runs out.
    fn renamed(&self, alloc: Global, name: &str) -> Result<Name, AllocError>
        ensures { IfOk result (λ new. new ≡ renamed (put_in self.now) name.now) };
}

/// Nothing is put in: every name stays.
#[derive(Clone, Copy, Debug)]
pub struct Unchanged;

impl Replacing for Unchanged {
    ghost use Rattle.qs_tree.specs.Replacements.{put_nothing};

    ghost put_in = { λ it. put_nothing };

    fn at_name(&self, alloc: Global, name: &str) -> Result<ExprKind, AllocError> {
        Ok(ExprKind::Name(Name::copy_of(alloc, name)?))
    }

    #[tactic(auto, using(crate::proofs::SubstitutionLemmas::renamed_nothing))]
    fn renamed(&self, alloc: Global, name: &str) -> Result<Name, AllocError> {
        Name::copy_of(alloc, name)
    }
}

/// A copy of an expression; an error where memory runs out.
pub fn expr_copied(alloc: Global, part: &Expr) -> Result<Expr, AllocError>
    ensures { IfOk result (λ copy. copy ≡ part.now) }
{
    substituted(alloc, part, &Unchanged)
}

/// A copy of what an expression is.
fn kind_copied(alloc: Global, part: &ExprKind) -> Result<ExprKind, AllocError>
    ensures { IfOk result (λ copy. copy ≡ part.now) }
{
    kind_substituted(alloc, part, &Unchanged)
}

/// An expression with the name for which it is put in.
#[derive(Clone, Copy, Debug)]
pub struct Replacement<'a> {
    pub name: &'a str,
    pub by: &'a Expr,
}

/// Expressions by the names for which they are put in, with a look-up that doesn't go over a list.
#[derive(Drop)]
pub struct ReplacementTable<'a> {
    by_name: HashMap<&'a str, &'a Expr>,
}

impl<'a> ReplacementTable<'a> {
    ghost use Rattle.std.specs.Prelude.{ℕ, List as PureList};
    ghost use Rattle.qs_tree.specs.Replacements.{put_at, put_in_list};

    /// The table of a list of pairs: of two with one name the first counts. An error where memory
    /// runs out.
    pub fn of(alloc: Global, pairs: &[Replacement<'a>]) -> Result<ReplacementTable<'a>, AllocError>
        ensures { IfOk result
            (λ table. (name : PureList ℕ) → put_at table name ≡ put_in_list pairs.now name) }
    {
        let mut by_name = HashMap::new(alloc);
        for pair in pairs {
            put_first(&mut by_name, pair.name, pair.by)?;
        }
        Ok(ReplacementTable { by_name })
    }
}

impl<'a> Replacing for ReplacementTable<'a> {
    ghost use Rattle.qs_tree.specs.Replacements.{put_at};

    ghost put_in = { put_at };

    fn at_name(&self, alloc: Global, name: &str) -> Result<ExprKind, AllocError> {
        match self.by_name.get(name) {
            None => Unchanged.at_name(alloc, name),
            Some(by) => kind_copied(alloc, &by.kind),
        }
    }

    fn renamed(&self, alloc: Global, name: &str) -> Result<Name, AllocError> {
        match self.by_name.get(name) {
            None => Name::copy_of(alloc, name),
            Some(by) => name_or(alloc, name, &by.kind),
        }
    }
}

/// A copy of the name that an expression is, and else of a given one.
fn name_or(alloc: Global, name: &str, part: &ExprKind) -> Result<Name, AllocError>
    ensures { IfOk result (λ new. new ≡ name_or name.now part.now) }
{
    match part {
        ExprKind::Name(other) => Name::copy_of(alloc, other.as_str()),
        _ => Name::copy_of(alloc, name),
    }
}
