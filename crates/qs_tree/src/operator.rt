ghost use Rattle.std.specs.Prelude.{◌≡◌};
ghost use Rattle.qs_tree.specs.Truths.{bin_gives_truth, un_gives_truth};

/// An operator before its operand.
#[derive(Clone, Copy, Debug, PartialEq, Eq)]
pub enum UnOp {
    /// `!`
    Not,
    /// `-`
    Neg,
    /// `~`
    Invert,
}

impl UnOp {
    /// Whether it makes truth values alone.
    pub fn gives_truth(self) -> bool
        ensures { result ≡ un_gives_truth self }
    {
        match self {
            UnOp::Not => true,
            UnOp::Neg | UnOp::Invert => false,
        }
    }
}

/// An operator between its operands, from the tightest to the loosest.
#[derive(Clone, Copy, Debug, PartialEq, Eq)]
pub enum BinOp {
    /// `**`, which groups to the right; all others group to the left.
    Power,
    /// `*`
    Mul,
    /// `/`
    Div,
    /// `%`
    Rem,
    /// `+`
    Add,
    /// `-`
    Sub,
    /// `<<`
    ShiftLeft,
    /// `>>`
    ShiftRight,
    /// `<`
    Less,
    /// `<=`
    LessEqual,
    /// `>`
    Greater,
    /// `>=`
    GreaterEqual,
    /// `==`
    Equal,
    /// `!=`
    NotEqual,
    /// `&`
    BitAnd,
    /// `^`
    BitXor,
    /// `|`
    BitOr,
    /// `&&`
    And,
    /// `||`
    Or,
}

impl BinOp {
    /// Whether it makes truth values alone: a comparison, `&&` and `||`.
    pub fn gives_truth(self) -> bool
        ensures { result ≡ bin_gives_truth self }
    {
        match self {
            BinOp::Less
            | BinOp::LessEqual
            | BinOp::Greater
            | BinOp::GreaterEqual
            | BinOp::Equal
            | BinOp::NotEqual
            | BinOp::And
            | BinOp::Or => true,
            _ => false,
        }
    }
}
