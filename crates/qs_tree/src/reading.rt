ghost use Rattle.std.specs.Prelude.{◌≡◌, ◌||◌, map};
ghost use Rattle.std.specs.Option.{option_map};
ghost use Rattle.qs_tree.specs.Reading.{any_reads, reads_if_there, body_reads, call_reads, expr_reads, item_reads, kind_reads, modifier_reads, operand_reads, param_reads, place_reads, range_reads, stmt_kind_reads, stmt_reads, type_reads, value_reads};

use crate::expr::{Expr, ExprKind, TypeExpr};
use crate::gate::{Call, Modifier};
use crate::operand::{Operand, Place, Value};
use crate::pulse::{Item, Param};
use crate::statement::{Body, Range, Stmt, StmtKind};
use qs_values::{Boxed, List};

/// Which names are variables.
pub trait Variables {
    ghost use Rattle.std.specs.Prelude.{ℕ, List, Bool};

    ghost test: { Self → List ℕ → Bool };

    /// Whether a name is a variable's.
    fn is_variable(&self, name: &str) -> bool
        ensures { result ≡ test self.now name.now };
}

fn either(one: bool, other: bool) -> bool
    ensures { result ≡ (one || other) }
{
    one || other
}

#[cycle(reading)]
fn kind_reads<V: Variables>(part: &ExprKind, variables: &V) -> bool
    ensures { result ≡ kind_reads (V.test variables.now) part.now }
{
    match part {
        ExprKind::Whole(_) => false,
        ExprKind::Decimal(_) => false,
        ExprKind::Time(_, _) => false,
        ExprKind::Text(_) => false,
        ExprKind::Truth(_) => false,
        ExprKind::Name(x0) => variables.is_variable(x0.as_str()),
        ExprKind::Index(x0, x1) => either(
            variables.is_variable(x0.as_str()),
            expr_reads(x1.get(), variables),
        ),
        ExprKind::Physical(_) => false,
        ExprKind::Call(_, x1) => exprs_read(x1.as_slice(), variables),
        ExprKind::Cast(x0, x1) => either(
            type_reads(x0, variables),
            expr_reads(x1.get(), variables),
        ),
        ExprKind::DurationOf(x0) => stmts_read(x0.as_slice(), variables),
        ExprKind::Group(x0) => expr_reads(x0.get(), variables),
        ExprKind::Unary(_, x1) => expr_reads(x1.get(), variables),
        ExprKind::Binary(x0, _, x2) => either(
            expr_reads(x0.get(), variables),
            expr_reads(x2.get(), variables),
        ),
        ExprKind::Number(_) => false,
    }
}

#[cycle(reading)]
fn modifier_reads<V: Variables>(part: &Modifier, variables: &V) -> bool
    ensures { result ≡ modifier_reads (V.test variables.now) part.now }
{
    match part {
        Modifier::Inv => false,
        Modifier::Pow(x0) => expr_reads(x0, variables),
        Modifier::Ctrl(x0) => expr_in_reads(x0, variables),
        Modifier::NegCtrl(x0) => expr_in_reads(x0, variables),
    }
}

#[cycle(reading)]
fn operand_reads<V: Variables>(part: &Operand, variables: &V) -> bool
    ensures { result ≡ operand_reads (V.test variables.now) part.now }
{
    match part {
        Operand::Named(x0) => place_reads(x0, variables),
        Operand::PhysicalQubit(_, _) => false,
    }
}

#[cycle(reading)]
fn value_reads<V: Variables>(part: &Value, variables: &V) -> bool
    ensures { result ≡ value_reads (V.test variables.now) part.now }
{
    match part {
        Value::Expression(x0) => expr_reads(x0, variables),
        Value::Measurement(x0) => operand_reads(x0, variables),
    }
}

#[cycle(reading)]
fn item_reads<V: Variables>(part: &Item, variables: &V) -> bool
    ensures { result ≡ item_reads (V.test variables.now) part.now }
{
    match part {
        Item::Port(_, _, _) => false,
        Item::ExternFrame(_, _) => false,
        Item::ExternWaveform(_, _) => false,
        Item::Frame(_, _, x2) => expr_reads(x2, variables),
        Item::Return(_, x1) => expr_reads(x1, variables),
        Item::Statement(x0) => stmt_reads(x0, variables),
    }
}

#[cycle(reading)]
fn param_reads<V: Variables>(part: &Param, variables: &V) -> bool
    ensures { result ≡ param_reads (V.test variables.now) part.now }
{
    match part {
        Param::Free(x0, _) => type_reads(x0, variables),
        Param::Fixed(x0) => expr_reads(x0, variables),
    }
}

#[cycle(reading)]
fn body_reads<V: Variables>(part: &Body, variables: &V) -> bool
    ensures { result ≡ body_reads (V.test variables.now) part.now }
{
    match part {
        Body::One(x0) => stmt_reads(x0.get(), variables),
        Body::Braces(x0) => stmts_read(x0.as_slice(), variables),
    }
}

#[cycle(reading)]
fn range_reads<V: Variables>(part: &Range, variables: &V) -> bool
    ensures { result ≡ range_reads (V.test variables.now) part.now }
{
    match part {
        Range::Interval(_, x1, x2, x3) => either(
            expr_reads(x1.get(), variables),
            either(
                boxed_expr_reads(x2, variables),
                expr_reads(x3.get(), variables),
            ),
        ),
        Range::Set(_, x1) => exprs_read(x1.as_slice(), variables),
    }
}

#[cycle(reading)]
fn stmt_kind_reads<V: Variables>(part: &StmtKind, variables: &V) -> bool
    ensures { result ≡ stmt_kind_reads (V.test variables.now) part.now }
{
    match part {
        StmtKind::Include(_) => false,
        StmtKind::DefcalGrammar(_) => false,
        StmtKind::Qubit(x0, _) => expr_in_reads(x0, variables),
        StmtKind::Input(x0, _) => type_reads(x0, variables),
        StmtKind::Output(x0, _) => type_reads(x0, variables),
        StmtKind::Gate(_, _, _, x3) => stmts_read(x3.as_slice(), variables),
        StmtKind::Cal(x0) => items_read(x0.as_slice(), variables),
        StmtKind::Defcal(_, x1, x2, _, x4) => either(
            match x1 {
                Some(parts) => params_read(parts.as_slice(), variables),
                None => false
            },
            either(
                operands_read(x2.as_slice(), variables),
                items_read(x4.as_slice(), variables),
            ),
        ),
        StmtKind::Init(_, x1, _, x3) => either(
            type_reads(x1, variables),
            value_reads(x3, variables),
        ),
        StmtKind::Declare(x0, _) => type_reads(x0, variables),
        StmtKind::Stretch(_) => false,
        StmtKind::GateCall(x0) => call_reads(x0, variables),
        StmtKind::Assign(x0, x1) => either(place_reads(x0, variables), value_reads(x1, variables)),
        StmtKind::Update(x0, _, x2) => either(
            place_reads(x0, variables),
            expr_reads(x2, variables),
        ),
        StmtKind::Measure(x0, x1) => either(
            operand_reads(x0, variables),
            place_in_reads(x1, variables),
        ),
        StmtKind::Reset(x0) => operand_reads(x0, variables),
        StmtKind::Barrier(x0) => operands_read(x0.as_slice(), variables),
        StmtKind::Delay(x0, x1) => either(
            expr_reads(x0, variables),
            operands_read(x1.as_slice(), variables),
        ),
        StmtKind::Box(x0, x1) => either(
            expr_in_reads(x0, variables),
            stmts_read(x1.as_slice(), variables),
        ),
        StmtKind::If(x0, x1, x2) => either(
            expr_reads(x0, variables),
            either(body_reads(x1, variables), body_in_reads(x2, variables)),
        ),
        StmtKind::While(x0, x1) => either(expr_reads(x0, variables), body_reads(x1, variables)),
        StmtKind::For(x0, _, x2, x3) => either(
            type_reads(x0, variables),
            either(range_reads(x2, variables), body_reads(x3, variables)),
        ),
        StmtKind::Break => false,
        StmtKind::Continue => false,
        StmtKind::End => false,
    }
}

/// Whether an expression reads a variable: one of its names is one, in an index, an argument or a
/// statement of a `durationof` too. What is assigned to isn't read.
#[cycle(reading)]
pub fn expr_reads<V: Variables>(part: &Expr, variables: &V) -> bool
    ensures { result ≡ expr_reads (V.test variables.now) part.now }
{
    kind_reads(&part.kind, variables)
}

#[cycle(reading)]
fn type_reads<V: Variables>(part: &TypeExpr, variables: &V) -> bool
    ensures { result ≡ type_reads (V.test variables.now) part.now }
{
    boxed_expr_reads(&part.width, variables)
}

#[cycle(reading)]
fn call_reads<V: Variables>(part: &Call, variables: &V) -> bool
    ensures { result ≡ call_reads (V.test variables.now) part.now }
{
    either(
        modifiers_read(part.modifiers.as_slice(), variables),
        either(
            match &part.args {
                Some(parts) => exprs_read(parts.as_slice(), variables),
                None => false
            },
            operands_read(part.operands.as_slice(), variables),
        ),
    )
}

#[cycle(reading)]
fn place_reads<V: Variables>(part: &Place, variables: &V) -> bool
    ensures { result ≡ place_reads (V.test variables.now) part.now }
{
    boxed_expr_reads(&part.index, variables)
}

#[cycle(reading)]
fn stmt_reads<V: Variables>(part: &Stmt, variables: &V) -> bool
    ensures { result ≡ stmt_reads (V.test variables.now) part.now }
{
    stmt_kind_reads(&part.kind, variables)
}

#[cycle(reading)]
fn exprs_read<V: Variables>(parts: &[Expr], variables: &V) -> bool
    ensures { result ≡ any_reads (map (expr_reads (V.test variables.now)) parts.now) }
{
    let mut any = false;
    for part in parts {
        let one = expr_reads(part, variables);
        any = either(any, one);
    }
    any
}

#[cycle(reading)]
fn items_read<V: Variables>(parts: &[Item], variables: &V) -> bool
    ensures { result ≡ any_reads (map (item_reads (V.test variables.now)) parts.now) }
{
    let mut any = false;
    for part in parts {
        let one = item_reads(part, variables);
        any = either(any, one);
    }
    any
}

#[cycle(reading)]
fn modifiers_read<V: Variables>(parts: &[Modifier], variables: &V) -> bool
    ensures { result ≡ any_reads (map (modifier_reads (V.test variables.now)) parts.now) }
{
    let mut any = false;
    for part in parts {
        let one = modifier_reads(part, variables);
        any = either(any, one);
    }
    any
}

#[cycle(reading)]
fn operands_read<V: Variables>(parts: &[Operand], variables: &V) -> bool
    ensures { result ≡ any_reads (map (operand_reads (V.test variables.now)) parts.now) }
{
    let mut any = false;
    for part in parts {
        let one = operand_reads(part, variables);
        any = either(any, one);
    }
    any
}

#[cycle(reading)]
fn params_read<V: Variables>(parts: &[Param], variables: &V) -> bool
    ensures { result ≡ any_reads (map (param_reads (V.test variables.now)) parts.now) }
{
    let mut any = false;
    for part in parts {
        let one = param_reads(part, variables);
        any = either(any, one);
    }
    any
}

#[cycle(reading)]
fn stmts_read<V: Variables>(parts: &[Stmt], variables: &V) -> bool
    ensures { result ≡ any_reads (map (stmt_reads (V.test variables.now)) parts.now) }
{
    let mut any = false;
    for part in parts {
        let one = stmt_reads(part, variables);
        any = either(any, one);
    }
    any
}

#[cycle(reading)]
fn body_in_reads<V: Variables>(part: &Option<Body>, variables: &V) -> bool
    ensures { result ≡ reads_if_there (option_map (body_reads (V.test variables.now)) part.now) }
{
    match part {
        Some(part) => body_reads(part, variables),
        None => false,
    }
}

#[cycle(reading)]
fn expr_in_reads<V: Variables>(part: &Option<Expr>, variables: &V) -> bool
    ensures { result ≡ reads_if_there (option_map (expr_reads (V.test variables.now)) part.now) }
{
    match part {
        Some(part) => expr_reads(part, variables),
        None => false,
    }
}

#[cycle(reading)]
fn place_in_reads<V: Variables>(part: &Option<Place>, variables: &V) -> bool
    ensures { result ≡ reads_if_there (option_map (place_reads (V.test variables.now)) part.now) }
{
    match part {
        Some(part) => place_reads(part, variables),
        None => false,
    }
}

#[cycle(reading)]
fn boxed_expr_reads<V: Variables>(part: &Option<Boxed<Expr>>, variables: &V) -> bool
    ensures { result ≡ reads_if_there (option_map (expr_reads (V.test variables.now)) part.now) }
{
    match part {
        Some(part) => expr_reads(part.get(), variables),
        None => false,
    }
}
