ghost use Rattle.std.specs.Prelude.{◌≡◌, IfOk, OnOk, map, codes};
ghost use Rattle.std.specs.Option.{option_map};
ghost use Rattle.qasm_dump.specs.Trees.{after_if, after_version, in_braces, in_round_if, in_square_if, lines, operands_after, parts, tree_text, with_commas};
ghost use Rattle.qasm_dump.specs.Trees.{write_body, write_call, write_expr, write_item, write_kind, write_modifier, write_operand, write_param, write_place, write_range, write_stmt, write_stmt_kind, write_type, write_value};

use crate::signs::{sign_of_assign, sign_of_bin, sign_of_un, truth_word, word_of_type};
use crate::tokens::unit_text;
use crate::writing::{
    put, put_calibrated, put_frac, put_ident, put_idents, put_idents_if, put_if, put_name,
    put_number, put_place,
};
use qs_tree::{
    Body, Call, Expr, ExprKind, Item, Modifier, Operand, Param, Place, Range, Source, Stmt,
    StmtKind, TypeExpr, Value,
};
use qs_values::{Boxed, List, Name};
use std::alloc::{AllocError, Global};

/// An expression: each operator with its operands in brackets of its own.
#[cycle(writing)]
fn put_kind(out: &mut Vec<u8>, part: &ExprKind) -> Result<(), AllocError>
    ensures { OnOk result (out.new.items ≡ write_kind part.now out.old.items) }
{
    match part {
        ExprKind::Whole(value) => put_number(out, *value),
        ExprKind::Decimal(value) => put_frac(out, *value),
        ExprKind::Time(value, unit) => {
            put_frac(out, *value)?;
            put(out, unit_text(*unit))
        }
        ExprKind::Text(text) => put_name(out, text),
        ExprKind::Truth(value) => put(out, truth_word(*value)),
        ExprKind::Name(name) => put_name(out, name),
        ExprKind::Index(name, index) => {
            put_name(out, name)?;
            put(out, b"[")?;
            put_expr(out, index.get())?;
            put(out, b"]")
        }
        ExprKind::Physical(number) => {
            put(out, b"$")?;
            put_number(out, *number as u64)
        }
        ExprKind::Call(name, args) => {
            put_name(out, name)?;
            put(out, b"(")?;
            put_exprs(out, args.as_slice())?;
            put(out, b")")
        }
        ExprKind::Cast(type_expr, operand) => {
            put_type(out, type_expr)?;
            put(out, b"(")?;
            put_expr(out, operand.get())?;
            put(out, b")")
        }
        ExprKind::DurationOf(body) => {
            put(out, b"durationof(")?;
            put_block(out, body.as_slice())?;
            put(out, b")")
        }
        ExprKind::Group(inner) => {
            put(out, b"(")?;
            put_expr(out, inner.get())?;
            put(out, b")")
        }
        ExprKind::Unary(op, operand) => {
            put(out, b"(")?;
            put(out, sign_of_un(*op))?;
            put(out, b" ")?;
            put_expr(out, operand.get())?;
            put(out, b")")
        }
        ExprKind::Binary(left, op, right) => {
            put(out, b"(")?;
            put_expr(out, left.get())?;
            put(out, b" ")?;
            put(out, sign_of_bin(*op))?;
            put(out, b" ")?;
            put_expr(out, right.get())?;
            put(out, b")")
        }
        ExprKind::Number(_) => put(out, b"number"),
    }
}

/// An expression.
#[cycle(writing)]
fn put_expr(out: &mut Vec<u8>, part: &Expr) -> Result<(), AllocError>
    ensures { OnOk result (out.new.items ≡ write_expr part.now out.old.items) }
{
    put_kind(out, &part.kind)
}

/// A type, with its width.
#[cycle(writing)]
fn put_type(out: &mut Vec<u8>, part: &TypeExpr) -> Result<(), AllocError>
    ensures { OnOk result (out.new.items ≡ write_type part.now out.old.items) }
{
    put(out, word_of_type(part.word))?;
    put_in_square_if(out, &part.width)
}

/// A name, or an element of what it names.
#[cycle(writing)]
fn put_place_part(out: &mut Vec<u8>, part: &Place) -> Result<(), AllocError>
    ensures { OnOk result (out.new.items ≡ write_place part.now out.old.items) }
{
    put_ident(out, &part.name)?;
    put_in_square_if(out, &part.index)
}

/// An operand.
#[cycle(writing)]
fn put_operand(out: &mut Vec<u8>, part: &Operand) -> Result<(), AllocError>
    ensures { OnOk result (out.new.items ≡ write_operand part.now out.old.items) }
{
    match part {
        Operand::Named(named) => put_place_part(out, named),
        Operand::PhysicalQubit(_, number) => {
            put(out, b"$")?;
            put_number(out, *number as u64)
        }
    }
}

/// What is assigned.
#[cycle(writing)]
fn put_value(out: &mut Vec<u8>, part: &Value) -> Result<(), AllocError>
    ensures { OnOk result (out.new.items ≡ write_value part.now out.old.items) }
{
    match part {
        Value::Expression(e) => put_expr(out, e),
        Value::Measurement(operand) => {
            put(out, b"measure ")?;
            put_operand(out, operand)
        }
    }
}

/// A modifier of a call.
#[cycle(writing)]
fn put_modifier(out: &mut Vec<u8>, part: &Modifier) -> Result<(), AllocError>
    ensures { OnOk result (out.new.items ≡ write_modifier part.now out.old.items) }
{
    match part {
        Modifier::Inv => put(out, b"inv @ "),
        Modifier::Pow(exponent) => {
            put(out, b"pow(")?;
            put_expr(out, exponent)?;
            put(out, b") @ ")
        }
        Modifier::Ctrl(count) => {
            put(out, b"ctrl")?;
            put_in_round_if(out, count)?;
            put(out, b" @ ")
        }
        Modifier::NegCtrl(count) => {
            put(out, b"negctrl")?;
            put_in_round_if(out, count)?;
            put(out, b" @ ")
        }
    }
}

/// A call with its modifiers.
#[cycle(writing)]
fn put_call(out: &mut Vec<u8>, part: &Call) -> Result<(), AllocError>
    ensures { OnOk result (out.new.items ≡ write_call part.now out.old.items) }
{
    put_modifiers(out, part.modifiers.as_slice())?;
    put_ident(out, &part.name)?;
    match &part.args {
        Some(args) => {
            put(out, b"(")?;
            put_exprs(out, args.as_slice())?;
            put(out, b")")?;
            put_operands(out, part.operands.as_slice())
        }
        None => put_operands(out, part.operands.as_slice()),
    }
}

/// A parameter of a calibration.
#[cycle(writing)]
fn put_param(out: &mut Vec<u8>, part: &Param) -> Result<(), AllocError>
    ensures { OnOk result (out.new.items ≡ write_param part.now out.old.items) }
{
    match part {
        Param::Free(type_expr, name) => {
            put_type(out, type_expr)?;
            put(out, b" ")?;
            put_ident(out, name)
        }
        Param::Fixed(e) => put_expr(out, e),
    }
}

/// An item of a calibration.
#[cycle(writing)]
fn put_item(out: &mut Vec<u8>, part: &Item) -> Result<(), AllocError>
    ensures { OnOk result (out.new.items ≡ write_item part.now out.old.items) }
{
    match part {
        Item::Port(span, outer, name) => {
            put_place(out, *span)?;
            put_if(out, *outer, b"extern ")?;
            put(out, b"port ")?;
            put_ident(out, name)?;
            put(out, b";")
        }
        Item::ExternFrame(span, name) => {
            put_place(out, *span)?;
            put(out, b"extern frame ")?;
            put_ident(out, name)?;
            put(out, b";")
        }
        Item::ExternWaveform(span, name) => {
            put_place(out, *span)?;
            put(out, b"extern waveform ")?;
            put_ident(out, name)?;
            put(out, b";")
        }
        Item::Frame(span, name, e) => {
            put_place(out, *span)?;
            put(out, b"frame ")?;
            put_ident(out, name)?;
            put(out, b" = ")?;
            put_expr(out, e)?;
            put(out, b";")
        }
        Item::Return(span, e) => {
            put_place(out, *span)?;
            put(out, b"return ")?;
            put_expr(out, e)?;
            put(out, b";")
        }
        Item::Statement(stmt) => put_stmt(out, stmt),
    }
}

/// A body: one statement without braces stands between angle brackets.
#[cycle(writing)]
fn put_body(out: &mut Vec<u8>, part: &Body) -> Result<(), AllocError>
    ensures { OnOk result (out.new.items ≡ write_body part.now out.old.items) }
{
    match part {
        Body::One(stmt) => {
            put(out, b"<")?;
            put_stmt(out, stmt.get())?;
            put(out, b">")
        }
        Body::Braces(stmts) => put_block(out, stmts.as_slice()),
    }
}

/// The values of a `for`.
#[cycle(writing)]
fn put_range(out: &mut Vec<u8>, part: &Range) -> Result<(), AllocError>
    ensures { OnOk result (out.new.items ≡ write_range part.now out.old.items) }
{
    match part {
        Range::Interval(_, first, step, last) => {
            put(out, b"[")?;
            put_expr(out, first.get())?;
            put_step_if(out, step)?;
            put(out, b":")?;
            put_expr(out, last.get())?;
            put(out, b"]")
        }
        Range::Set(_, members) => {
            put(out, b"{")?;
            put_exprs(out, members.as_slice())?;
            put(out, b"}")
        }
    }
}

/// What a statement is.
#[cycle(writing)]
fn put_stmt_kind(out: &mut Vec<u8>, part: &StmtKind) -> Result<(), AllocError>
    ensures { OnOk result (out.new.items ≡ write_stmt_kind part.now out.old.items) }
{
    match part {
        StmtKind::Include(text) => {
            put(out, b"include ")?;
            put_name(out, text)?;
            put(out, b";")
        }
        StmtKind::DefcalGrammar(text) => {
            put(out, b"defcalgrammar ")?;
            put_name(out, text)?;
            put(out, b";")
        }
        StmtKind::Qubit(size, name) => {
            put(out, b"qubit")?;
            put_size_if(out, size)?;
            put(out, b" ")?;
            put_ident(out, name)?;
            put(out, b";")
        }
        StmtKind::Input(type_expr, name) => {
            put(out, b"input ")?;
            put_type(out, type_expr)?;
            put(out, b" ")?;
            put_ident(out, name)?;
            put(out, b";")
        }
        StmtKind::Output(type_expr, name) => {
            put(out, b"output ")?;
            put_type(out, type_expr)?;
            put(out, b" ")?;
            put_ident(out, name)?;
            put(out, b";")
        }
        StmtKind::Gate(name, params, qubits, calls) => {
            put(out, b"gate ")?;
            put_ident(out, name)?;
            put_idents_if(out, params)?;
            put(out, b" ")?;
            put_idents(out, qubits.as_slice())?;
            put(out, b" ")?;
            put_block(out, calls.as_slice())
        }
        StmtKind::Cal(items) => {
            put(out, b"cal ")?;
            put_items(out, items.as_slice())
        }
        StmtKind::Defcal(name, Some(params), operands, gives, items) => {
            put(out, b"defcal ")?;
            put_calibrated(out, name)?;
            put(out, b"(")?;
            put_params(out, params.as_slice())?;
            put(out, b")")?;
            put_operands(out, operands.as_slice())?;
            put_if(out, *gives, b" -> bit")?;
            put(out, b" ")?;
            put_items(out, items.as_slice())
        }
        StmtKind::Defcal(name, None, operands, gives, items) => {
            put(out, b"defcal ")?;
            put_calibrated(out, name)?;
            put_operands(out, operands.as_slice())?;
            put_if(out, *gives, b" -> bit")?;
            put(out, b" ")?;
            put_items(out, items.as_slice())
        }
        StmtKind::Init(is_const, type_expr, name, value) => {
            put_if(out, *is_const, b"const ")?;
            put_type(out, type_expr)?;
            put(out, b" ")?;
            put_ident(out, name)?;
            put(out, b" = ")?;
            put_value(out, value)?;
            put(out, b";")
        }
        StmtKind::Declare(type_expr, name) => {
            put_type(out, type_expr)?;
            put(out, b" ")?;
            put_ident(out, name)?;
            put(out, b";")
        }
        StmtKind::Stretch(name) => {
            put(out, b"stretch ")?;
            put_ident(out, name)?;
            put(out, b";")
        }
        StmtKind::GateCall(call) => {
            put_call(out, call)?;
            put(out, b";")
        }
        StmtKind::Assign(to, value) => {
            put_place_part(out, to)?;
            put(out, b" = ")?;
            put_value(out, value)?;
            put(out, b";")
        }
        StmtKind::Update(to, op, e) => {
            put_place_part(out, to)?;
            put(out, b" ")?;
            put(out, sign_of_assign(*op))?;
            put(out, b" ")?;
            put_expr(out, e)?;
            put(out, b";")
        }
        StmtKind::Measure(operand, to) => {
            put(out, b"measure ")?;
            put_operand(out, operand)?;
            put_to_if(out, to)?;
            put(out, b";")
        }
        StmtKind::Reset(operand) => {
            put(out, b"reset ")?;
            put_operand(out, operand)?;
            put(out, b";")
        }
        StmtKind::Barrier(operands) => {
            put(out, b"barrier")?;
            put_operands(out, operands.as_slice())?;
            put(out, b";")
        }
        StmtKind::Delay(time, operands) => {
            put(out, b"delay[")?;
            put_expr(out, time)?;
            put(out, b"]")?;
            put_operands(out, operands.as_slice())?;
            put(out, b";")
        }
        StmtKind::Box(time, stmts) => {
            put(out, b"box")?;
            put_size_if(out, time)?;
            put(out, b" ")?;
            put_block(out, stmts.as_slice())
        }
        StmtKind::If(test, body, other) => {
            put(out, b"if (")?;
            put_expr(out, test)?;
            put(out, b") ")?;
            put_body(out, body)?;
            put_else_if(out, other)
        }
        StmtKind::While(test, body) => {
            put(out, b"while (")?;
            put_expr(out, test)?;
            put(out, b") ")?;
            put_body(out, body)
        }
        StmtKind::For(type_expr, name, range, body) => {
            put(out, b"for ")?;
            put_type(out, type_expr)?;
            put(out, b" ")?;
            put_ident(out, name)?;
            put(out, b" in ")?;
            put_range(out, range)?;
            put(out, b" ")?;
            put_body(out, body)
        }
        StmtKind::Break => put(out, b"break;"),
        StmtKind::Continue => put(out, b"continue;"),
        StmtKind::End => put(out, b"end;"),
    }
}

/// A statement at its place, with the statements in it.
#[cycle(writing)]
fn put_stmt(out: &mut Vec<u8>, part: &Stmt) -> Result<(), AllocError>
    ensures { OnOk result (out.new.items ≡ write_stmt part.now out.old.items) }
{
    put_place(out, part.span)?;
    put_stmt_kind(out, &part.kind)
}

/// Expressions with commas between.
#[cycle(writing)]
fn put_exprs(out: &mut Vec<u8>, each: &[Expr]) -> Result<(), AllocError>
    ensures { OnOk result (out.new.items ≡ with_commas (map write_expr each.now) out.old.items) }
{
    let Some((first, others)) = each.split_first() else {
        return Ok(());
    };
    put_expr(out, first)?;
    for part in others {
        put(out, b", ")?;
        put_expr(out, part)?;
    }
    Ok(())
}

/// Parameters with commas between.
#[cycle(writing)]
fn put_params(out: &mut Vec<u8>, each: &[Param]) -> Result<(), AllocError>
    ensures { OnOk result (out.new.items ≡ with_commas (map write_param each.now) out.old.items) }
{
    let Some((first, others)) = each.split_first() else {
        return Ok(());
    };
    put_param(out, first)?;
    for part in others {
        put(out, b", ")?;
        put_param(out, part)?;
    }
    Ok(())
}

/// Operands with commas between, after a blank where there are some.
#[cycle(writing)]
fn put_operands(out: &mut Vec<u8>, each: &[Operand]) -> Result<(), AllocError>
    ensures { OnOk result
        (out.new.items ≡ operands_after (map write_operand each.now) out.old.items) }
{
    let Some((first, others)) = each.split_first() else {
        return Ok(());
    };
    put(out, b" ")?;
    put_operand(out, first)?;
    for part in others {
        put(out, b", ")?;
        put_operand(out, part)?;
    }
    Ok(())
}

/// Modifiers, the outermost first.
#[cycle(writing)]
fn put_modifiers(out: &mut Vec<u8>, each: &[Modifier]) -> Result<(), AllocError>
    ensures { OnOk result (out.new.items ≡ parts (map write_modifier each.now) out.old.items) }
{
    for part in each {
        put_modifier(out, part)?;
    }
    Ok(())
}

/// Statements in braces.
#[cycle(writing)]
fn put_block(out: &mut Vec<u8>, each: &[Stmt]) -> Result<(), AllocError>
    ensures { OnOk result (out.new.items ≡ in_braces (map write_stmt each.now) out.old.items) }
{
    put(out, b"{")?;
    for part in each {
        put(out, b" ")?;
        put_stmt(out, part)?;
    }
    put(out, b" }")
}

/// Items in braces.
#[cycle(writing)]
fn put_items(out: &mut Vec<u8>, each: &[Item]) -> Result<(), AllocError>
    ensures { OnOk result (out.new.items ≡ in_braces (map write_item each.now) out.old.items) }
{
    put(out, b"{")?;
    for part in each {
        put(out, b" ")?;
        put_item(out, part)?;
    }
    put(out, b" }")
}

/// An expression in square brackets, where there is one.
#[cycle(writing)]
fn put_in_square_if(out: &mut Vec<u8>, each: &Option<Boxed<Expr>>) -> Result<(), AllocError>
    ensures { OnOk result
        (out.new.items ≡ in_square_if (option_map write_expr each.now) out.old.items) }
{
    match each {
        Some(part) => {
            put(out, b"[")?;
            put_expr(out, part.get())?;
            put(out, b"]")
        }
        None => Ok(()),
    }
}

/// A size or a time in square brackets, where there is one.
#[cycle(writing)]
fn put_size_if(out: &mut Vec<u8>, each: &Option<Expr>) -> Result<(), AllocError>
    ensures { OnOk result
        (out.new.items ≡ in_square_if (option_map write_expr each.now) out.old.items) }
{
    match each {
        Some(part) => {
            put(out, b"[")?;
            put_expr(out, part)?;
            put(out, b"]")
        }
        None => Ok(()),
    }
}

/// An expression in round brackets, where there is one.
#[cycle(writing)]
fn put_in_round_if(out: &mut Vec<u8>, each: &Option<Expr>) -> Result<(), AllocError>
    ensures { OnOk result
        (out.new.items ≡ in_round_if (option_map write_expr each.now) out.old.items) }
{
    match each {
        Some(part) => {
            put(out, b"(")?;
            put_expr(out, part)?;
            put(out, b")")
        }
        None => Ok(()),
    }
}

/// The step of an interval, where there is one.
#[cycle(writing)]
fn put_step_if(out: &mut Vec<u8>, each: &Option<Boxed<Expr>>) -> Result<(), AllocError>
    ensures { OnOk result
        (out.new.items ≡ after_if (codes ":") (option_map write_expr each.now) out.old.items) }
{
    match each {
        Some(part) => {
            put(out, b":")?;
            put_expr(out, part.get())
        }
        None => Ok(()),
    }
}

/// Where a measurement goes, where that stands there.
#[cycle(writing)]
fn put_to_if(out: &mut Vec<u8>, each: &Option<Place>) -> Result<(), AllocError>
    ensures { OnOk result
        (out.new.items ≡ after_if (codes " -> ") (option_map write_place each.now) out.old.items) }
{
    match each {
        Some(part) => {
            put(out, b" -> ")?;
            put_place_part(out, part)
        }
        None => Ok(()),
    }
}

/// What is done else, where that stands there.
#[cycle(writing)]
fn put_else_if(out: &mut Vec<u8>, each: &Option<Body>) -> Result<(), AllocError>
    ensures { OnOk result
        (out.new.items ≡ after_if (codes " else ") (option_map write_body each.now) out.old.items) }
{
    match each {
        Some(part) => {
            put(out, b" else ")?;
            put_body(out, part)
        }
        None => Ok(()),
    }
}

/// The line of a version, where there is one.
fn put_version(out: &mut Vec<u8>, each: &Option<Name>) -> Result<(), AllocError>
    ensures { OnOk result (out.new.items ≡ after_version each.now out.old.items) }
{
    match each {
        Some(part) => {
            put(out, b"OPENQASM ")?;
            put_name(out, part)?;
            put(out, b"\n")
        }
        None => Ok(()),
    }
}

/// A line for each statement.
fn put_lines(out: &mut Vec<u8>, each: &[Stmt]) -> Result<(), AllocError>
    ensures { OnOk result (out.new.items ≡ lines each.now out.old.items) }
{
    for part in each {
        put_stmt(out, part)?;
        put(out, b"\n")?;
    }
    Ok(())
}

/// The text of a tree: the version, and then a line for each statement.
pub fn tree_text(alloc: Global, source: &Source) -> Result<Vec<u8>, AllocError>
    ensures { IfOk result (λ text. text.items ≡ tree_text source.now) }
{
    let mut out = Vec::new(alloc);
    put_version(&mut out, &source.version)?;
    put_lines(&mut out, source.body.as_slice())?;
    Ok(out)
}
