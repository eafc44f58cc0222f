ghost use Rattle.std.specs.Prelude.{◌≡◌, drop};
ghost use Rattle.std.specs.Option.{option_map};
ghost use Rattle.qs_parser.specs.steps.Expressions.{bin_op, bin_op_at, un_op, un_op_at};
ghost use Rattle.qs_parser.specs.steps.Strengths.{strength, strength_at};

use qs_lexer::{Token, TokenKind};
use qs_tree::{BinOp, UnOp};

/// The operator of a sign before an operand.
pub fn un_op(text: &str) -> Option<UnOp>
    ensures { result ≡ un_op text.now }
{
    match text {
        "!" => Some(UnOp::Not),
        "-" => Some(UnOp::Neg),
        "~" => Some(UnOp::Invert),
        _ => None,
    }
}

/// The operator before an operand at a place.
pub fn un_op_at(tokens: &[Token], at: usize) -> Option<UnOp>
    ensures { result ≡ un_op_at (drop at tokens.now) }
{
    let token = tokens.get(at)?;
    match token.kind {
        TokenKind::Sign => un_op(token.text.as_str()),
        _ => None,
    }
}

/// The operator of a sign between two operands, by how many levels of operators bind more tightly.
pub fn bin_op(level: usize, text: &str) -> Option<BinOp>
    ensures { result ≡ bin_op level text.now }
{
    match level {
        0 => match text {
            "*" => Some(BinOp::Mul),
            "/" => Some(BinOp::Div),
            "%" => Some(BinOp::Rem),
            _ => None,
        },
        1 => match text {
            "+" => Some(BinOp::Add),
            "-" => Some(BinOp::Sub),
            _ => None,
        },
        2 => match text {
            "<<" => Some(BinOp::ShiftLeft),
            ">>" => Some(BinOp::ShiftRight),
            _ => None,
        },
        3 => match text {
            "<" => Some(BinOp::Less),
            "<=" => Some(BinOp::LessEqual),
            ">" => Some(BinOp::Greater),
            ">=" => Some(BinOp::GreaterEqual),
            _ => None,
        },
        4 => match text {
            "==" => Some(BinOp::Equal),
            "!=" => Some(BinOp::NotEqual),
            _ => None,
        },
        5 if text == "&" => Some(BinOp::BitAnd),
        6 if text == "^" => Some(BinOp::BitXor),
        7 if text == "|" => Some(BinOp::BitOr),
        8 if text == "&&" => Some(BinOp::And),
        9 if text == "||" => Some(BinOp::Or),
        _ => None,
    }
}

/// How many levels of operators bind more tightly than the one of a sign between two operands, or ten
/// of any other sign. Signs that end an expression come first: most expressions have no operator.
fn strength(text: &str) -> usize
    ensures { result ≡ strength text.now }
{
    match text {
        ")" | "," | ";" | "]" => 10,
        "*" | "/" | "%" => 0,
        "+" | "-" => 1,
        "<<" | ">>" => 2,
        "<" | "<=" | ">" | ">=" => 3,
        "==" | "!=" => 4,
        "&" => 5,
        "^" => 6,
        "|" => 7,
        "&&" => 8,
        "||" => 9,
        _ => 10,
    }
}

/// The same of the token at a place.
pub fn strength_at(tokens: &[Token], at: usize) -> usize
    ensures { result ≡ strength_at (drop at tokens.now) }
{
    match tokens.get(at) {
        Some(token) => match token.kind {
            TokenKind::Sign => strength(token.text.as_str()),
            _ => 10,
        },
        None => 10,
    }
}

/// Such an operator at a place, and the place after it.
pub fn bin_op_at(level: usize, tokens: &[Token], at: usize) -> Option<(BinOp, usize)>
    ensures { option_map (λ r. (r.0, drop r.1 tokens.now)) result
        ≡ bin_op_at level (drop at tokens.now) }
{
    let token = tokens.get(at)?;
    let _count = tokens.len();
    match token.kind {
        TokenKind::Sign => {
            let op = bin_op(level, token.text.as_str())?;
            Some((op, at + 1))
        }
        _ => None,
    }
}
