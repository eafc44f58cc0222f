use qs_tree::{Expr, ExprKind, Replacement, ReplacementTable, substituted};
use qs_values::{Boxed, Name, Span};
use std::test::Fail;

fn at(col: u32, kind: ExprKind) -> Expr {
    let span = Span { line: 1, col };
    Expr { span, kind }
}

fn put<'a>(name: &'a str, by: &'a Expr) -> Replacement<'a> {
    Replacement { name, by }
}

/// In `a[t]` the name `a` becomes another one, and of two numbers for `t` the first is put in at its
/// place.
#[test]
fn puts_in(rt: HostRuntime) -> Result<(), Fail> {
    let alloc = rt.alloc();
    let other = at(70, ExprKind::Name(Name::copy_of(alloc, "a.4")?));
    let two = at(80, ExprKind::Whole(2));
    let three = at(90, ExprKind::Whole(3));
    let pairs = [put("a", &other), put("t", &two), put("t", &three)];
    let table = ReplacementTable::of(alloc, &pairs)?;
    let index = at(3, ExprKind::Name(Name::copy_of(alloc, "t")?));
    let index = Boxed::new(alloc, index)?;
    let e = at(1, ExprKind::Index(Name::copy_of(alloc, "a")?, index));
    let new = substituted(alloc, &e, &table)?;
    let want =
        r#"Expr { span: Span { line: 1, col: 1 }, kind: Index(Name { held: "a.4" }, Boxed { held: Expr { span: Span { line: 1, col: 3 }, kind: Whole(2) } }) }"#;
    assert_eq!(rt; format!(in alloc; "{new:?}")?.as_str(), want);
    Ok(())
}
