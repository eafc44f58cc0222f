ghost use Rattle.std.specs.Prelude.{◌≡◌};
ghost use Rattle.qs_tree.specs.Spelling.{sign_of_assign, sign_of_bin, sign_of_un, truth_word, word_of_type};

use qs_tree::{AssignOp, BinOp, TypeWord, UnOp};

/// The sign of an operator before its operand.
pub fn sign_of_un(op: UnOp) -> &'static [u8]
    ensures { result.now ≡ sign_of_un op }
{
    match op {
        UnOp::Not => b"!",
        UnOp::Neg => b"-",
        UnOp::Invert => b"~",
    }
}

/// The sign of an operator between its operands.
pub fn sign_of_bin(op: BinOp) -> &'static [u8]
    ensures { result.now ≡ sign_of_bin op }
{
    match op {
        BinOp::Power => b"**",
        BinOp::Mul => b"*",
        BinOp::Div => b"/",
        BinOp::Rem => b"%",
        BinOp::Add => b"+",
        BinOp::Sub => b"-",
        BinOp::ShiftLeft => b"<<",
        BinOp::ShiftRight => b">>",
        BinOp::Less => b"<",
        BinOp::LessEqual => b"<=",
        BinOp::Greater => b">",
        BinOp::GreaterEqual => b">=",
        BinOp::Equal => b"==",
        BinOp::NotEqual => b"!=",
        BinOp::BitAnd => b"&",
        BinOp::BitXor => b"^",
        BinOp::BitOr => b"|",
        BinOp::And => b"&&",
        BinOp::Or => b"||",
    }
}

/// The sign of an operator that assigns.
pub fn sign_of_assign(op: AssignOp) -> &'static [u8]
    ensures { result.now ≡ sign_of_assign op }
{
    match op {
        AssignOp::Add => b"+=",
        AssignOp::Sub => b"-=",
        AssignOp::Mul => b"*=",
        AssignOp::Div => b"/=",
        AssignOp::Rem => b"%=",
        AssignOp::BitAnd => b"&=",
        AssignOp::BitOr => b"|=",
        AssignOp::BitXor => b"^=",
        AssignOp::ShiftLeft => b"<<=",
        AssignOp::ShiftRight => b">>=",
    }
}

/// The word of a type.
pub fn word_of_type(word: TypeWord) -> &'static [u8]
    ensures { result.now ≡ word_of_type word }
{
    match word {
        TypeWord::Bit => b"bit",
        TypeWord::Int => b"int",
        TypeWord::Uint => b"uint",
        TypeWord::Angle => b"angle",
        TypeWord::Bool => b"bool",
        TypeWord::Duration => b"duration",
    }
}

/// The word of a truth value.
pub fn truth_word(value: bool) -> &'static [u8]
    ensures { result.now ≡ truth_word value }
{
    if value { b"true" } else { b"false" }
}
