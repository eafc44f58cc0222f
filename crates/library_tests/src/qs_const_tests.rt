use qs_const::{Absent, Cause, Judgement, Kinds, Meaning, Names, fold, judged};
use qs_lexer::{Token, TokenKind, lex};
use qs_tree::BinOp::{
    Add, And, BitAnd, BitOr, BitXor, Div, Equal, Greater, GreaterEqual, Less, LessEqual, Mul,
    NotEqual, Or, Power, Rem, ShiftLeft, ShiftRight, Sub,
};
use qs_tree::{
    BinOp, Const, ConstTable, ConstVal, Consts, Expr, ExprKind, TypeExpr, TypeWord, UnOp, bits_of,
};
use qs_values::{Boxed, Frac, List, Name, Num, Span};
use std::alloc::{AllocError, Global};
use std::test::Fail;

/// The operators between two operands, from the tightest to the loosest.
static OPERATORS: [BinOp; 19] = [
    Power,
    Mul,
    Div,
    Rem,
    Add,
    Sub,
    ShiftLeft,
    ShiftRight,
    Less,
    LessEqual,
    Greater,
    GreaterEqual,
    Equal,
    NotEqual,
    BitAnd,
    BitXor,
    BitOr,
    And,
    Or,
];

/// How the operators between two operands are spelled, in the order of `OPERATORS`.
static SIGNS: [&str; 19] = [
    "**", "*", "/", "%", "+", "-", "<<", ">>", "<", "<=", ">", ">=", "==", "!=", "&", "^", "|",
    "&&", "||",
];

/// How tightly each of them binds; an operator before its operand has 11.
static LEVELS: [u8; 19] = [12, 10, 10, 10, 9, 9, 8, 8, 7, 7, 7, 7, 6, 6, 5, 4, 3, 2, 1];

/// An operator between two operands, and how tightly it binds.
fn between(text: &str) -> Option<(BinOp, u8)> {
    let at = SIGNS.iter().position(|sign| *sign == text)?;
    let op = OPERATORS.get(at)?;
    Some((*op, *LEVELS.get(at)?))
}

/// The tokens of a text that are still to be read.
#[derive(Drop)]
struct Reader<'a> {
    alloc: Global,
    tokens: &'a [Token],
}

impl<'a> Reader<'a> {
    fn take(&mut self) -> Result<&'a Token, Fail> {
        let (first, rest) = self.tokens.split_first().ok_or("the text ends")?;
        self.tokens = rest;
        Ok(first)
    }

    /// The text of the next token.
    fn next(&self) -> &'a str {
        match self.tokens.first() {
            Some(token) => token.text.as_str(),
            None => "",
        }
    }

    /// An expression whose operators bind at a level or tighter.
    #[cycle(reading)]
    fn expression(&mut self, least: u8, depth: u8) -> Result<Expr, Fail> {
        let depth = depth.checked_sub(1).ok_or("too deep")?;
        let mut left = self.operand(depth)?;
        for _ in 0..self.tokens.len() {
            let (op, level) = match between(self.next()) {
                Some((op, level)) if level >= least => (op, level),
                _ => return Ok(left),
            };
            self.take()?;
            // a power takes another one as its right operand
            let above = level.saturating_add((op != BinOp::Power) as u8);
            let right = Boxed::new(self.alloc, self.expression(above, depth)?)?;
            let span = left.span;
            let kind = ExprKind::Binary(Boxed::new(self.alloc, left)?, op, right);
            left = Expr { span, kind };
        }
        Ok(left)
    }

    /// A value, a name, or an operator or a bracket with its expression.
    #[cycle(reading)]
    fn operand(&mut self, depth: u8) -> Result<Expr, Fail> {
        let depth = depth.checked_sub(1).ok_or("too deep")?;
        let Token { span, text, kind } = self.take()?;
        let text = text.as_str();
        let name = Name::copy_of(self.alloc, text)?;
        let kind = match *kind {
            TokenKind::Whole(value) => ExprKind::Whole(value),
            TokenKind::Decimal(value) => ExprKind::Decimal(value),
            TokenKind::Time(value, unit) => ExprKind::Time(value, unit),
            TokenKind::Physical(number) => ExprKind::Physical(number),
            TokenKind::Text => ExprKind::Text(name),
            TokenKind::Word if text == "true" || text == "false" => ExprKind::Truth(text == "true"),
            TokenKind::Word => self.named(name, depth)?,
            TokenKind::Sign => {
                let least = if text == "(" { 0 } else { 11 };
                let inner = Boxed::new(self.alloc, self.expression(least, depth)?)?;
                match text {
                    "!" => ExprKind::Unary(UnOp::Not, inner),
                    "-" => ExprKind::Unary(UnOp::Neg, inner),
                    "~" => ExprKind::Unary(UnOp::Invert, inner),
                    _ => self.take().map(|_| ExprKind::Group(inner))?,
                }
            }
        };
        Ok(Expr { span: *span, kind })
    }

    /// A name, with its index or its argument where brackets stand behind it; `int` makes a cast.
    #[cycle(reading)]
    fn named(&mut self, name: Name, depth: u8) -> Result<ExprKind, Fail> {
        let depth = depth.checked_sub(1).ok_or("too deep")?;
        let open = self.next();
        if open != "[" && open != "(" {
            return Ok(ExprKind::Name(name));
        }
        self.take()?;
        let inner = self.expression(0, depth)?;
        self.take()?;
        let (span, word, width) = (inner.span, TypeWord::Int, None);
        Ok(match (open, name.as_str()) {
            ("[", _) => ExprKind::Index(name, Boxed::new(self.alloc, inner)?),
            (_, "int") => {
                let operand = Boxed::new(self.alloc, inner)?;
                ExprKind::Cast(TypeExpr { span, word, width }, operand)
            }
            _ => ExprKind::Call(name, List::from_vec(vec![in self.alloc; inner]?)),
        })
    }
}

/// The expression that a text spells.
fn read(alloc: Global, text: &str) -> Result<Expr, Fail> {
    let bytes = text.as_bytes();
    if bytes.len() > 1_048_576 {
        return Err("the text is too long".into());
    }
    let tokens = lex(alloc, bytes)?;
    let tokens = tokens.as_slice();
    let mut reader = Reader { alloc, tokens };
    let e = reader.expression(0, 100)?;
    if !reader.tokens.is_empty() {
        return Err("the text goes on".into());
    }
    Ok(e)
}

// ---- a table

/// The number `plain/2 + pi * π`.
fn number(plain: i32, pi: i32) -> Result<ConstVal, Fail> {
    let plain = Frac::of(plain as i128, 2)?;
    let pi = Frac::whole(pi);
    Ok(ConstVal::Number(Num { plain, pi }))
}

/// The constants that the texts may name. Of two `n` the first counts, and `pi` is none of these.
fn constants(alloc: Global) -> Result<Consts, Fail> {
    let digits = bits_of(alloc, "\"0110\"")?.ok_or("no digits")?;
    let values = [
        ("n", number(10, 0)?),
        ("half", number(1, 0)?),
        ("mixed", number(6, 2)?),
        ("yes", ConstVal::Truth(true)),
        ("no", ConstVal::Truth(false)),
        ("digits", ConstVal::Bits(digits)),
        ("n", number(14, 0)?),
        ("pi", number(6, 0)?),
        ("τ", number(12, 0)?),
    ];
    let mut list = Vec::new(alloc);
    for (name, value) in values {
        let name = Name::copy_of(alloc, name)?;
        list.push(Const { name, value })?;
    }
    Ok(Consts {
        list: List::from_vec(list),
    })
}

/// The constants, and what all other names mean.
#[derive(Drop)]
struct Known<'a> {
    table: ConstTable<'a>,
    other: Meaning,
}

impl Names for Known<'_> {
    ghost use Rattle.std.specs.Prelude.{false};
    ghost use Rattle.qs_tree.specs.Constants.{constant_at};
    ghost use Rattle.qs_const.specs.Folding.{constant_or};

    ghost scope = { λ known. record { means = λ name. constant_or known.other (constant_at known.table name); in_duration = false } };

    fn meaning(&self, alloc: Global, name: &str) -> Result<Meaning, AllocError> {
        if let Some(value) = self.table.get(name) {
            return Ok(Meaning::Constant(value.copied(alloc)?));
        }
        Ok(match &self.other {
            Meaning::Constant(value) => Meaning::Constant(value.copied(alloc)?),
            Meaning::Variable => Meaning::Variable,
            Meaning::Unknown => Meaning::Unknown,
            Meaning::Parameter => Meaning::Parameter,
            Meaning::Duration => Meaning::Duration,
            Meaning::Gate => Meaning::Gate,
            Meaning::NoValue => Meaning::NoValue,
        })
    }

    fn is_in_duration(&self) -> bool {
        false
    }
}

/// Texts, each with what it comes to where a name without a constant is a variable, unknown and a
/// parameter: once, where these are one.
static ROWS: &str = r#"# whole numbers and their limits
0 => 0/1; 999999999999999999 => 999999999999999999/1; 1000000000000000000 => 121 1:1 constant
18446744073709551615 => 121 1:1 constant; -999999999999999999 => -999999999999999999/1
-1000000000000000000 => 121 1:2 number; 999999999999999999 + 0 => 999999999999999999/1
999999999999999999 + 1 => 121 1:1 constant; -999999999999999999 - 1 => 121 1:1 constant
1 - -999999999999999999 => 121 1:1 constant; 333333333333333333 * 3 => 999999999999999999/1
500000000000000000 * 2 => 121 1:1 constant
# fractions
0.5 => 1/2; 1e3 => 1000/1; 0.1 + 0.2 => 3/10; 2/4 => 1/2; 6/-4 => -3/2; 7/7 => 1/1; 0/-5 => 0/1
5/2 => 5/2; 1/999999999999999999 => 1/999999999999999999; 1/1000000000000000000 => 121 1:3 number
1/333333333333333333/3 => 1/999999999999999999; 1/500000000000000000/2 => 121 1:1 constant
(1/3 + 1/6) * 2 => 1/1; 1/999999999999999999 + 1/999999999999999998 => 121 1:1 constant
1/0 => 123 1:1 constant; 0/0 => 123 1:1 constant; 1/(2 - 2) => 123 1:1 constant
true / 0 => 123 1:1 constant; "01" / 0 => 123 1:1 constant
# pi
pi => 0/1 + 1/1 pi; π => 0/1 + 1/1 pi; tau => 0/1 + 2/1 pi; τ => 0/1 + 2/1 pi
-pi => 0/1 + -1/1 pi; pi/2 + 1 => 1/1 + 1/2 pi; 2*pi - tau => 0/1; pi*pi => 122 1:1 constant
(pi - pi)*pi => 0/1; pi*(1 + pi) => 122 1:1 constant; pi*(pi/pi) => 0/1 + 1/1 pi; pi/pi => 1/1
(2*pi)/(4*pi) => 1/2; 0/pi => 0/1; 0*pi/pi => 0/1; 1/pi => 124 1:1 constant
pi/0 => 123 1:1 constant; pi/(0*pi) => 123 1:1 constant; (1 + pi)/pi => 124 1:1 constant
pi/(1 + pi) => 124 1:1 constant; 0/(1 + pi) => 124 1:1 constant; (1 + pi)/-2 => -1/2 + -1/2 pi
true / pi => 124 1:1 constant; 999999999999999999*pi + pi => 121 1:1 constant
pi/999999999999999999/2 => 121 1:1 constant
# powers
0**0 => 1/1; 0**63 => 0/1; (-1)**63 => -1/1; 2**59 => 576460752303423488/1
2**60 => 121 1:1 constant; 2**63 => 121 1:1 constant; 2**64 => 125 1:1 constant
(-2)**59 => -576460752303423488/1; (-2)**63 => 121 1:1 constant; (1/2)**59 => 1/576460752303423488
(1/2)**60 => 121 1:1 constant; -2**2 => -4/1; 2**3**2 => 512/1; 2**-0 => 1/1
2**-1 => 125 1:1 constant; 2**0.5 => 125 1:1 constant; 2**true => 125 1:1 constant
2**"1" => 125 1:1 constant; 2**pi => 125 1:1 constant; true**64 => 125 1:1 constant
"01"**-1 => 125 1:1 constant; pi**0 => 1/1; pi**1 => 0/1 + 1/1 pi; pi**2 => 122 1:1 constant
pi**64 => 125 1:1 constant; (1 + pi)**1 => 1/1 + 1/1 pi; (1 + pi)**2 => 122 1:1 constant
(0*pi)**2 => 0/1; (2/3)**3 => 8/27
# remainders
7 % 3 => 1/1; 7 % -3 => 1/1; -7 % 3 => -1/1; -7 % -3 => -1/1; 6 % 3 => 0/1; 0 % 5 => 0/1
999999999999999999 % 1000000000 => 999999999/1; 7 % 0 => 123 1:1 constant
pi % 0 => 123 1:1 constant; true % 0 => 123 1:1 constant; 5 % pi => 124 1:1 constant
5 % (1 + pi) => 124 1:1 constant; true % pi => 124 1:1 constant
# shifts
1 << 59 => 576460752303423488/1; -1 << 59 => -576460752303423488/1; 1 << 60 => 121 1:1 constant
1 << 62 => 121 1:1 constant; 1 << 63 => 121 1:1 constant; 1 << 64 => 121 1:1 constant
0 << 63 => 0/1; 0 << 64 => 121 1:1 constant; 3 << -1 => 121 1:1 constant
pi << 100 => 121 1:1 constant; true << 64 => 121 1:1 constant; 9 >> 1 => 4/1; -9 >> 1 => -5/1
-1 >> 63 => -1/1; 999999999999999999 >> 59 => 1/1; -999999999999999999 >> 63 => -1/1
9 >> 64 => 121 1:1 constant; 0.5 >> -1 => 121 1:1 constant; 1 << 2 + 1 => 8/1
# bits
12 & 10 => 8/1; 12 | 10 => 14/1; 12 ^ 10 => 6/1; -1 & 999999999999999999 => 999999999999999999/1
-8 | 3 => -5/1; -1 ^ 5 => -6/1; 576460752303423488 | 576460752303423487 => 121 1:1 constant
576460752303423488 ^ 576460752303423487 => 121 1:1 constant
-999999999999999999 & -576460752303423488 => 121 1:1 constant; 1 | 2 ^ 3 & 6 => 1/1; ~0 => -1/1
~-1 => 0/1; ~-999999999999999999 => 999999999999999998/1; ~999999999999999999 => 121 1:1 constant
# comparisons and truth values
1 < 2 => true; 2 < 2 => false; -1 < 0 => true; 2 <= 2 => true; 3 <= 2 => false; 3 > 2 => true
2 > 2 => false; 2 >= 2 => true; 1 >= 2 => false; 4/2 == 2 => true; 2 == 3 => false
2 != 2 => false; 2 != 3 => true; true == true => true; true == false => false
false == false => true; true != false => true; true != true => false; 1 < 2 == true => true
!true => false; !!true => true; true && false => false; true && true => true
false || true => true; false || false => false; true || false && false => true
# texts
"01" => 01; ("0_1") => 01
"1111111111111111111111111111111111111111111111111111111111111111" => 1111111111111111111111111111111111111111111111111111111111111111
# names
n => 5/1; n + 2 => 7/1; half * 4 => 2/1; mixed => 3/1 + 2/1 pi; mixed - 3 => 0/1 + 2/1 pi
2**n => 32/1; 1 << n => 32/1; !no && yes => true; digits => 0110; (digits) => 0110
z => 134 1:1 constant | 131 1:1 constant | constant
(z) => 134 1:2 constant | 131 1:2 constant | constant
-z => 134 1:2 number | 131 1:2 number | number; !z => 134 1:2 truth | 131 1:2 truth | truth
z + 0 => 134 1:1 number | 131 1:1 number | number
0 + z => 134 1:5 number | 131 1:5 number | number
z && true => 134 1:1 truth | 131 1:1 truth | truth
z + y => 134 1:1 number | 131 1:1 number | number
z * pi => 134 1:1 number | 131 1:1 number | number
z/2 => 134 1:1 number | 131 1:1 number | number; z/0 => 123 1:1 constant
z/pi => 134 1:1 number | 131 1:1 number | number; z/(1 + pi) => 124 1:1 constant
1/z => 134 1:3 number | 131 1:3 number | number; z % 0 => 123 1:1 constant
z % pi => 124 1:1 constant; z % 3 => 134 1:1 number | 131 1:1 number | number
z**64 => 125 1:1 constant; z**true => 125 1:1 constant
z << 2 => 134 1:1 number | 131 1:1 number | number; z << 64 => 121 1:1 constant
z >> -1 => 121 1:1 constant; 1 << z => 134 1:6 number | 131 1:6 number | number
z[1] => 134 1:1 constant | 131 1:1 constant | 133 1:1 constant
z[1/0] => 134 1:1 constant | 131 1:1 constant | 133 1:1 constant; z[1]/0 => 123 1:1 constant
# the first of two refusals
(1/0 + z) => 123 1:2 number; (z + 1/0) => 134 1:2 number | 131 1:2 number | 123 1:6 number
1/0 + pi*pi => 123 1:1 number; pi*pi + 1/0 => 122 1:1 number; (pi*pi)/0 => 123 1:1 constant
pi*pi/0 => 122 1:1 constant; 1/0 % pi => 123 1:1 constant; (2**64) + 1/0 => 125 1:2 number
2**60/0 => 121 1:1 constant; 2**64 << 64 => 121 1:1 constant; 0 * (1/0) => 123 1:6 number
false && 1/0 == 1 => 123 1:10 truth; (1/0)**64 => 125 1:1 constant;    pi*pi => 122 1:4 constant
# powers at run time, and exponents that are truth values by their operators
z**2 => 125 1:1 constant | 131 1:1 number | number
2**z => 125 1:1 constant | 131 1:4 number | number
z**z => 125 1:1 constant | 131 1:1 number | number
(z)**2 => 125 1:1 constant | 131 1:2 number | number
2**(z) => 125 1:1 constant | 131 1:5 number | number
z[1]**2 => 125 1:1 constant | 131 1:1 number | 133 1:1 number
2**z[1] => 125 1:1 constant | 131 1:4 number | 133 1:4 number
-z**2 => 125 1:2 number | 131 1:2 number | number
2**-z => 134 1:5 number | 131 1:5 number | number
1 + z**2 => 125 1:5 number | 131 1:5 number | number
true**z => 125 1:1 constant | 133 1:1 constant | 133 1:1 constant
"01"**z => 125 1:1 constant | 133 1:1 constant | 133 1:1 constant
(-true)**z => 125 1:1 constant | 133 1:2 number | 133 1:2 number
z**(-true) => 125 1:1 constant | 131 1:1 number | 133 1:5 number
(z + 1/0)**2 => 134 1:2 number | 131 1:2 number | 123 1:6 number; (1/0 + z)**2 => 123 1:2 number
2**(z + 1/0) => 134 1:5 number | 131 1:5 number | 123 1:9 number; 2**(1/0 + z) => 123 1:5 number
(1/0 + n)**2 => 123 1:2 number; 2**(1/0 + n) => 123 1:5 number; -(1/0 * z)**2 => 123 1:3 number
!(1/0 == z)**2 => 125 1:2 truth; (z**2)**2 => 125 1:2 number | 131 1:2 number | number
2**z**2 => 125 1:4 number | 131 1:4 number | number; n[1/0 + z]**2 => 133 1:1 number
2**n[z] => 133 1:4 number; (z + 1/0)**2 + 1 => 134 1:2 number | 131 1:2 number | 123 1:6 number
1/0 + z**2 => 123 1:1 number; z[1/0]**2 => 125 1:1 constant | 131 1:1 number | 133 1:1 number
2**(f(1) + z) => 131 1:5 number; z**(1/0) => 125 1:1 constant | 131 1:1 number | 123 1:5 number
(1/0)**z => 125 1:1 constant | 123 1:2 number | 123 1:2 number; (pi*pi)**2 => 122 1:2 number
2**(pi*pi) => 122 1:5 number; 2**(1/0 == 1) => 125 1:1 constant; 2**(1/0) => 123 1:5 number
2**(1/0 < 1) => 125 1:1 constant; 2**!(1/0) => 125 1:1 constant
2**((1/0 || true)) => 125 1:1 constant; 2**-(1/0 == 1) => 133 1:4 number
2**(1 && 1) => 133 1:5 number; (1/0 == 1)**2 => 125 1:1 constant
(1/0 == 1)**64 => 125 1:1 constant
# truth values by their operators over pi
!z/pi => 124 1:1 constant; (!z)/pi => 124 1:1 constant; ((z < 1))/pi => 124 1:1 constant
(z >= 1)/tau => 124 1:1 constant; (z != 1)/(2*pi) => 124 1:1 constant
(1/0 || z)/pi => 124 1:1 constant; (1 && 1)/pi => 133 1:2 number; !z/2 => 133 1:1 constant
!z/0 => 123 1:1 constant; !z/(pi - pi) => 123 1:1 constant
-z/pi => 134 1:2 number | 131 1:2 number | number
~z/pi => 134 1:2 number | 131 1:2 number | number
(z + 1)/pi => 134 1:2 number | 131 1:2 number | number
z[1]/pi => 134 1:1 number | 131 1:1 number | 133 1:1 number; -!z/pi => 133 1:1 number
pi/!z => 133 1:1 constant
# counts that aren't whole
1 << 63.5 => 133 1:1 constant; 1 << 100.5 => 133 1:1 constant; 1 << -0.5 => 133 1:1 constant
1 >> 63.5 => 133 1:1 constant
1 >> -1/3 => 133 1:1 constant; z << 63.5 => 134 1:1 number | 131 1:1 constant | 133 1:1 constant
true << 64.5 => 133 1:1 constant; pi >> 100.5 => 133 1:1 constant
z << 62.5 => 134 1:1 number | 131 1:1 constant | 133 1:1 constant
z << pi => 134 1:1 number | 131 1:1 constant | 133 1:1 constant; 1/0 << 100*pi => 123 1:1 constant
# without a rule
pi > 3 => 133 1:1 constant; 0.5 == 0.5 => 133 1:1 constant; 1 && 1 => 133 1:1 constant
"01" == "01" => 133 1:1 constant; true**2 => 133 1:1 constant; "01"**2 => 133 1:1 constant
5 % 0.5 => 133 1:1 constant; pi % 2 => 133 1:1 constant; 1 << 0.5 => 133 1:1 constant
1 << 62.5 => 133 1:1 constant; 1 << pi => 133 1:1 constant; 1 >> 100 + pi => 133 1:1 constant
true << 1 => 133 1:1 constant; ~0.5 => 133 1:1 constant; 1 + true => 133 1:1 constant
-true => 133 1:1 constant; !1 => 133 1:1 constant; true == 1 => 133 1:1 constant
"" => 133 1:1 constant; "1__0" => 133 1:1 constant; "012" => 133 1:1 constant
n[0] => 133 1:1 constant; n[0]**2 => 133 1:1 number; 2**n[0] => 133 1:4 number
n[0]/pi => 133 1:1 number; pi[0] => 133 1:1 constant; 10ns => duration; 10ns + 10ns => duration
$0 => 133 1:1 constant; f(1) => 131 1:1 constant; int(1) => 133 1:1 constant
int(1)**2 => 133 1:1 number; 2**f(1) => 131 1:4 number; int(1/0) => 133 1:1 constant
f(z) => 131 1:1 constant
# the kinds of what has no value
!z => 134 1:2 truth | 131 1:2 truth | truth; -z => 134 1:2 number | 131 1:2 number | number
~z => 134 1:2 constant | 131 1:2 constant | constant
z + 1 => 134 1:1 number | 131 1:1 number | number; z == 1 => 134 1:1 truth | 131 1:1 truth | truth
z & 2 => 134 1:1 number | 131 1:1 number | number
z & 1 => 134 1:1 constant | 131 1:1 constant | constant
!z & !y => 134 1:2 truth | 131 1:2 truth | truth; 1 && z => 134 1:6 truth | 131 1:6 truth | truth
2 && z => 133 1:1 constant; true + z => 133 1:1 constant
z + true => 134 1:1 constant | 131 1:1 constant | 133 1:1 constant
true & z => 134 1:8 truth | 131 1:8 truth | truth
"01" + z => 134 1:8 number | 131 1:8 number | number; "01" << z => 133 1:1 constant
0.5 < z => 134 1:7 truth | 131 1:7 truth | truth; 0.5 % z => 133 1:1 constant
true**z => 125 1:1 constant | 133 1:1 constant | 133 1:1 constant
"01"**z => 125 1:1 constant | 133 1:1 constant | 133 1:1 constant
1 << !z => 133 1:1 constant
(z) << 63.5 => 134 1:2 number | 133 1:1 constant | 133 1:1 constant; true << z => 133 1:1 constant
!z == (y + 1) => 134 1:2 truth | 131 1:2 truth | truth; true == (z + 1) => 133 1:1 constant
!(z + 1) => 133 1:1 constant; (z + 1) && true => 133 1:1 constant
z[1] => 134 1:1 constant | 131 1:1 constant | 133 1:1 constant
z[1/0] => 134 1:1 constant | 131 1:1 constant | 133 1:1 constant; z(1) => 131 1:1 constant
1/0 == 1 => 123 1:1 truth; !(1/0)/pi => 124 1:1 constant; (1/0)/pi => 123 1:2 number
# durations
10ns*2 => duration; 2*10ns => duration; 10ns/2 => duration; 10ns/0 => 133 1:1 constant
10ns/pi => 133 1:1 constant; 10ns/z => 134 1:6 duration | 131 1:6 duration | duration
z/10ns => 134 1:1 constant | 131 1:1 constant | 133 1:1 constant
10ns*z => 134 1:6 duration | 131 1:6 duration | duration; 10ns + z => 133 1:1 constant
10ns == 10ns => 133 1:1 constant; -10ns => duration; ~10ns => 133 1:1 constant
10ns**2 => 133 1:1 constant; 10ns**64 => 125 1:1 constant; 2**10ns => 125 1:1 constant
10ns << 64 => 121 1:1 constant; 10ns % 0 => 133 1:1 constant
"#;

/// A value, or the number of the first fault with its place, and the kinds of what has no value.
fn told(alloc: Global, judgement: &Judgement) -> Result<String, Fail> {
    Ok(match judgement {
        Judgement::Value(ConstVal::Number(Num { plain, pi })) if pi.num() == 0 => {
            format!(in alloc; "{}/{}", plain.num(), plain.den())?
        }
        Judgement::Value(ConstVal::Number(Num { plain, pi })) => {
            format!(in alloc;
                "{}/{} + {}/{} pi",
                plain.num(),
                plain.den(),
                pi.num(),
                pi.den()
            )?
        }
        Judgement::Value(ConstVal::Truth(value)) => format!(in alloc; "{value}")?,
        Judgement::Value(ConstVal::Bits(digits)) => format!(in alloc; "{}", digits.text.as_str())?,
        Judgement::Absent(Absent { fault, kinds, .. }) => {
            let kinds = match kinds {
                Kinds::Number => "number",
                Kinds::Truth => "truth",
                Kinds::Duration => "duration",
                Kinds::NoDuration => "constant",
                Kinds::Anything => "anything",
            };
            match fault {
                None => format!(in alloc; "{kinds}")?,
                Some(fault) => {
                    let Span { line, col } = fault.span;
                    let code = match fault.cause {
                        Cause::Unknown => 131,
                        Cause::Variable => 134,
                        cause => cause.code(),
                    };
                    format!(in alloc; "{code} {line}:{col} {kinds}")?
                }
            }
        }
    })
}

/// What `fold` answers, or `None` where an expression isn't for it.
fn folds(alloc: Global, e: &Expr, consts: &Consts) -> Result<Option<String>, Fail> {
    let table = consts.table(alloc)?;
    let answer = match judged(alloc, e, &table)? {
        Judgement::Value(_) => fold(alloc, e, consts),
        Judgement::Absent(absent) => match absent.fault {
            Some(fault) if fault.cause != Cause::NoRule => fold(alloc, e, consts),
            _ => return Ok(None),
        },
    };
    Ok(Some(match answer {
        Ok(value) => told(alloc, &Judgement::Value(value))?,
        Err(refusal) => {
            let Span { line, col } = refusal.span().ok_or("memory")?;
            let code = if refusal.code() == 126 {
                134
            } else {
                refusal.code()
            };
            format!(in alloc; "{code} {line}:{col} ")?
        }
    }))
}

/// Whether an expression comes to an answer, where its other names have a meaning.
fn comes_to(
    alloc: Global,
    consts: &Consts,
    e: &Expr,
    other: Meaning,
    want: &str,
) -> Result<bool, Fail> {
    let table = consts.table(alloc)?;
    let judgement = judged(alloc, e, &Known { table, other })?;
    Ok(told(alloc, &judgement)?.as_str() == want)
}

/// The first of several answers, and those after it; one answer stands for all.
fn next_answer(wants: &str) -> (&str, &str) {
    match wants.split_once(" | ") {
        Some(parts) => parts,
        None => (wants, wants),
    }
}

/// Whether `fold` answers the first of a row's answers, where the row is for it.
fn is_folded(alloc: Global, consts: &Consts, e: &Expr, wants: &str) -> Result<bool, Fail> {
    let answer = match folds(alloc, e, consts)? {
        Some(answer) => answer,
        None => return Ok(true),
    };
    Ok(
        wants
            .replace(alloc, "131", "134")?
            .starts_with(answer.as_str()),
    )
}

/// Whether a row's text comes to its answers, and `fold` answers the first of them.
fn is_right(alloc: Global, consts: &Consts, row: &str) -> Result<bool, Fail> {
    let (text, wants) = row.split_once(" => ").ok_or("a row without an answer")?;
    let e = read(alloc, text)?;
    let (variable, rest) = next_answer(wants);
    let (unknown, parameter) = next_answer(rest);
    Ok(
        is_folded(alloc, consts, &e, wants)?
            && comes_to(alloc, consts, &e, Meaning::Variable, variable)?
            && comes_to(alloc, consts, &e, Meaning::Unknown, unknown)?
            && comes_to(alloc, consts, &e, Meaning::Parameter, parameter)?,
    )
}

#[test]
fn table(rt: HostRuntime) -> Result<(), Fail> {
    let alloc = rt.alloc();
    let consts = constants(alloc)?;
    let mut count = 0u32;
    for line in ROWS.lines() {
        if line.starts_with('#') {
            continue;
        }
        for row in line.split("; ") {
            assert!(rt; is_right(alloc, &consts, row)?, "{row}");
            count = count.saturating_add(1);
        }
    }
    assert_eq!(rt; count, 364);
    Ok(())
}

#[test]
fn names_that_no_expression_reads(rt: HostRuntime) -> Result<(), Fail> {
    let alloc = rt.alloc();
    let consts = constants(alloc)?;
    let refused = "133 1:1 constant";
    for (text, called) in [
        ("z", refused),
        ("z[1/0]", refused),
        ("z(1/0)", "131 1:1 constant"),
    ] {
        let e = read(alloc, text)?;
        assert!(rt; comes_to(alloc, &consts, &e, Meaning::Gate, refused)?);
        assert!(rt; comes_to(alloc, &consts, &e, Meaning::NoValue, called)?);
    }
    Ok(())
}
