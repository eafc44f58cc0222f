//! The tokens of a source: its bytes are cut into gaps and lexemes, each the longest that begins at
//! its place (OpenQASM 3.0, lexical structure, in this project's profile).
#![tactic(auto)]

mod ascii;
mod digits;
mod laws;
mod lexing;
mod mantissa;
mod numbers;
mod place;
mod refusal;
mod scan;
mod shape;
mod state;
mod token;
mod value;

pub use laws::lexed_once;
pub use lexing::lex;
pub use refusal::LexRefusal;
pub use token::{Token, TokenKind, Unit};
