ghost use Rattle.std.specs.Prelude.{◌≡◌, ◌<◌, ◌≤◌, ◌≢◌, All, IfOk, IfSome, length, option_map};
ghost use Rattle.qasm_main.specs.front.Source.{barrier_of, call_of, delay_of, gate_of, most_statements, only_qubit, qubit_of, qubit_pair, qubits_of, statement_of, ticks_in, ticks_of, time_of};
ghost use Rattle.qasm_main.specs.Texts.{longest_file_bytes};
ghost use Rattle.qasm_main.specs.front.Statement.{AreWellFormed, IsWellFormed, longest_delay_ticks};
ghost use Rattle.qasm_main.specs.front.Reads.{Reads, ReadsStatements};

use crate::front::refusal::{halt_of, malformed_halt, refusal_at};
use crate::front::statement::{LocatedStatement, Statement};
use qs_lexer::{Unit, lex};
use qs_parser::parse;
use qs_tree::{Call, Expr, ExprKind, Operand, Stmt, StmtKind};
use qs_values::{Frac, Halt, List};
use std::alloc::{AllocError, Global};
use std::mem::forget;

/// The code of what is OpenQASM, but isn't built yet.
const NOT_BUILT: u16 = 199;

/// The greatest number of ticks of a delay.
const LONGEST_DELAY_TICKS: u128 = 4_294_967_296;

/// How many statements a source has at most.
const MOST_STATEMENTS: u32 = 65_536;

/// The physical qubit of an operand, from 0 to 2.
#[tactic(auto, unfolding(crate::specs::front::Source::qubit_of))]
fn qubit_of(operand: &Operand) -> Option<u8>
    ensures value { result ≡ qubit_of operand.now }
    ensures three { IfSome result (λ q. q < 3) }
{
    match operand {
        Operand::PhysicalQubit(_, number) => {
            if *number < 3 {
                Some(*number as u8)
            } else {
                None
            }
        }
        Operand::Named(_) => None,
    }
}

/// The qubit of operands that are one.
#[tactic(auto, unfolding(crate::specs::front::Source::only_qubit))]
fn only_qubit(operands: &[Operand]) -> Option<u8>
    ensures value { result ≡ only_qubit operands.now }
    ensures three { IfSome result (λ q. q < 3) }
{
    let (first, others) = operands.split_first()?;
    if others.is_empty() {
        qubit_of(first)
    } else {
        None
    }
}

/// The two different qubits of operands that are two.
#[tactic(auto, unfolding(crate::specs::front::Source::qubit_pair))]
fn qubit_pair(operands: &[Operand]) -> Option<(u8, u8)>
    ensures value { result ≡ qubit_pair operands.now }
    ensures first { IfSome result (λ pair. pair.0 < 3) }
    ensures second { IfSome result (λ pair. pair.1 < 3) }
    ensures apart { IfSome result (λ pair. pair.0 ≢ pair.1) }
{
    let (first, others) = operands.split_first()?;
    let a = qubit_of(first)?;
    let b = only_qubit(others)?;
    if a == b { None } else { Some((a, b)) }
}

/// The qubits of operands, where each is one.
fn qubits_of(alloc: Global, operands: &[Operand]) -> Result<Option<List<u8>>, AllocError>
    ensures value { IfOk result (λ qubits. qubits ≡ qubits_of operands.now) }
    ensures three { IfOk result (λ qubits. IfSome qubits (λ qs. All (λ q. q < 3) qs)) }
    ensures same { IfOk result (λ qubits. IfSome qubits (λ qs. length qs ≡ length operands.now)) }
{
    let mut qubits = List::new(alloc);
    for operand in operands {
        let Some(qubit) = qubit_of(operand) else {
            return Ok(None);
        };
        qubits.push(qubit)?;
    }
    Ok(Some(qubits))
}

/// The ticks that a number of `dt` is, where it is whole and no longer than a delay may be.
fn ticks_of(value: Frac) -> Option<u64>
    ensures value { result ≡ ticks_of value }
    ensures longest { IfSome result (λ ticks. ticks ≤ longest_delay_ticks) }
{
    let ticks = value.num().unsigned_abs();
    if value.den() == 1 && 0 <= value.num() && ticks <= LONGEST_DELAY_TICKS {
        Some(ticks as u64)
    } else {
        None
    }
}

/// The ticks that a number of a unit is, where that unit is `dt`.
fn ticks_in(value: Frac, unit: Unit) -> Option<u64>
    ensures value { result ≡ ticks_in value unit }
    ensures longest { IfSome result (λ ticks. ticks ≤ longest_delay_ticks) }
{
    match unit {
        Unit::Dt => ticks_of(value),
        Unit::Ns | Unit::Us | Unit::Ms | Unit::S => None,
    }
}

/// The ticks of an expression that is a time.
#[tactic(auto, unfolding(crate::specs::front::Source::time_of))]
fn time_of(e: &Expr) -> Option<u64>
    ensures value { result ≡ time_of e.now }
    ensures longest { IfSome result (λ ticks. ticks ≤ longest_delay_ticks) }
{
    match &e.kind {
        ExprKind::Time(value, unit) => ticks_in(*value, *unit),
        ExprKind::Whole(_)
        | ExprKind::Decimal(_)
        | ExprKind::Text(_)
        | ExprKind::Truth(_)
        | ExprKind::Name(_)
        | ExprKind::Index(_, _)
        | ExprKind::Physical(_)
        | ExprKind::Call(_, _)
        | ExprKind::Cast(_, _)
        | ExprKind::DurationOf(_)
        | ExprKind::Group(_)
        | ExprKind::Unary(_, _)
        | ExprKind::Binary(_, _, _)
        | ExprKind::Number(_) => None,
    }
}

/// What a gate of this name does to operands.
#[tactic(auto, unfolding(crate::specs::front::Source::gate_of))]
fn gate_of(name: &str, operands: &[Operand]) -> Option<Statement>
    ensures value { result ≡ gate_of name.now operands.now }
    ensures formed { IfSome result IsWellFormed }
{
    match name {
        "x" => Some(Statement::X(only_qubit(operands)?)),
        "cx" => {
            let (control, target) = qubit_pair(operands)?;
            Some(Statement::Cx(control, target))
        }
        _ => None,
    }
}

/// The statement of a call without modifiers and parameters.
#[tactic(auto, unfolding(crate::specs::front::Source::call_of))]
fn call_of(call: &Call) -> Option<Statement>
    ensures value { result ≡ call_of call.now }
    ensures formed { IfSome result IsWellFormed }
{
    match &call.args {
        Some(_) => None,
        None => {
            if call.modifiers.is_empty() {
                gate_of(call.name.name.as_str(), call.operands.as_slice())
            } else {
                None
            }
        }
    }
}

/// A delay of a time on one qubit.
#[tactic(auto, unfolding(crate::specs::front::Source::delay_of))]
fn delay_of(time: &Expr, operands: &[Operand]) -> Option<Statement>
    ensures value { result ≡ delay_of time.now operands.now }
    ensures formed { IfSome result IsWellFormed }
{
    let ticks = time_of(time)?;
    Some(Statement::Delay(ticks, only_qubit(operands)?))
}

/// A barrier on one or more qubits.
#[tactic(auto, unfolding(crate::specs::front::Source::barrier_of))]
fn barrier_of(alloc: Global, operands: &[Operand]) -> Result<Option<Statement>, AllocError>
    ensures value { IfOk result (λ statement. statement ≡ barrier_of operands.now) }
    ensures formed { IfOk result (λ statement. IfSome statement IsWellFormed) }
{
    if operands.is_empty() {
        return Ok(None);
    }
    match qubits_of(alloc, operands)? {
        Some(qubits) => Ok(Some(Statement::Barrier(qubits))),
        None => Ok(None),
    }
}

/// The statement that a statement of a tree is, where it is one that is built.
#[tactic(auto, unfolding(crate::specs::front::Source::statement_of))]
fn statement_of(alloc: Global, stmt: &Stmt) -> Result<Option<Statement>, AllocError>
    ensures value { IfOk result (λ statement. statement ≡ statement_of stmt.now) }
    ensures formed { IfOk result (λ statement. IfSome statement IsWellFormed) }
{
    match &stmt.kind {
        StmtKind::GateCall(call) => Ok(call_of(call)),
        StmtKind::Delay(time, operands) => Ok(delay_of(time, operands.as_slice())),
        StmtKind::Barrier(operands) => barrier_of(alloc, operands.as_slice()),
        StmtKind::Include(_)
        | StmtKind::DefcalGrammar(_)
        | StmtKind::Qubit(_, _)
        | StmtKind::Input(_, _)
        | StmtKind::Output(_, _)
        | StmtKind::Gate(_, _, _, _)
        | StmtKind::Cal(_)
        | StmtKind::Defcal(_, _, _, _, _)
        | StmtKind::Init(_, _, _, _)
        | StmtKind::Declare(_, _)
        | StmtKind::Stretch(_)
        | StmtKind::Assign(_, _)
        | StmtKind::Update(_, _, _)
        | StmtKind::Measure(_, _)
        | StmtKind::Reset(_)
        | StmtKind::Box(_, _)
        | StmtKind::If(_, _, _)
        | StmtKind::While(_, _)
        | StmtKind::For(_, _, _, _)
        | StmtKind::Break
        | StmtKind::Continue
        | StmtKind::End => Ok(None),
    }
}

/// The statements of a tree at their places, in their order.
///
/// # Errors
///
/// As those of `read`, of a source that has a tree.
fn read_statements(alloc: Global, stmts: &[Stmt], most: u32) -> Result<List<LocatedStatement>, Halt>
    ensures reads { ReadsStatements most stmts.now result }
    ensures formed { IfOk result AreWellFormed }
    ensures few { IfOk result (λ v. length v ≤ most) }
{
    let mut statements = List::new(alloc);
    let mut left = most;
    for stmt in stmts {
        if left == 0 {
            return Err(Halt::Refused(refusal_at(alloc, NOT_BUILT, Some(stmt.span))));
        }
        let Some(statement) = statement_of(alloc, stmt)? else {
            return Err(Halt::Refused(refusal_at(alloc, NOT_BUILT, Some(stmt.span))));
        };
        statements.push(LocatedStatement {
            span: stmt.span,
            statement,
        })?;
        left -= 1;
    }
    Ok(statements)
}

/// The statements of a source at their places, in their order: `x $a;`, `cx $a, $b;`,
/// `delay[Ndt] $a;` and `barrier $a, ..;`, after a version line or without one.
///
/// # Errors
///
/// `Halt::Refused` with the code and the place of the source's first fault among its lexemes; where
/// it has none, with those of its tokens where they have no tree, with the word for 113; else with the
/// code of what isn't built and the place of the first statement that isn't, or that is one too many.
/// `Halt::Memory` where out of memory.
///
/// The memory of the tokens and of the tree is kept to the end of the program, which comes soon.
pub fn read(alloc: Global, source: &[u8]) -> Result<List<LocatedStatement>, Halt>
    requires { length source.now ≤ longest_file_bytes }
    ensures reads { Reads source.now result }
    ensures formed { IfOk result AreWellFormed }
    ensures few { IfOk result (λ v. length v ≤ most_statements) }
{
    let tokens = match lex(alloc, source) {
        Ok(tokens) => tokens,
        Err(fault) => return Err(halt_of(alloc, &fault)),
    };
    let parsed = parse(alloc, tokens.as_slice());
    forget(tokens);
    match parsed {
        Ok(tree) => {
            let statements = read_statements(alloc, tree.body.as_slice(), MOST_STATEMENTS);
            forget(tree);
            statements
        }
        Err(refusal) => Err(malformed_halt(alloc, refusal)),
    }
}
