use qs_values::{Name, Span};

/// A name at its place, where it is declared or stands for what was declared.
#[derive(Debug, Drop)]
pub struct Ident {
    pub span: Span,
    pub name: Name,
}
