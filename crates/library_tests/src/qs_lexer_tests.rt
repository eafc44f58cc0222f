use qs_lexer::{LexRefusal, TokenKind, Unit, lex};
use qs_values::{Frac, Num, Span, to_angle};
use std::test::Fail;

/// A token of each kind.
const SOURCE: &[u8] = b"x $3 0xF 0.3\n2.5us \"a\" ;";

/// The places, the characters and the kinds of tokens. That each of them is what the text says is
/// told by the rows of the program that prints tokens.
#[test]
fn lexes(rt: HostRuntime) -> Result<(), Fail> {
    let alloc = rt.alloc();
    let tokens = lex(alloc, SOURCE)?;
    let mut plain = Frac::whole(0);
    let mut time = Frac::whole(0);
    let table = [
        (1, 1, "x"),
        (1, 3, "$3"),
        (1, 6, "0xF"),
        (1, 10, "0.3"),
        (2, 1, "2.5us"),
        (2, 7, "\"a\""),
        (2, 11, ";"),
    ];
    assert_eq!(rt; tokens.len(), table.len());
    for (token, (line, col, text)) in tokens.as_slice().iter().zip(table) {
        assert_eq!(rt; token.span, Span { line, col });
        assert_eq!(rt; token.text.as_str(), text);
        match token.kind {
            TokenKind::Word => assert_eq!(rt; text, "x"),
            TokenKind::Physical(number) => assert_eq!(rt; number, 3),
            TokenKind::Whole(number) => assert_eq!(rt; number, 15),
            TokenKind::Decimal(value) => plain = value,
            TokenKind::Time(value, unit) => {
                assert_eq!(rt; unit, Unit::Us);
                time = value;
            }
            TokenKind::Text => assert_eq!(rt; text, "\"a\""),
            TokenKind::Sign => assert_eq!(rt; text, ";"),
        }
    }
    assert_eq!(rt; (time.num(), time.den()), (5, 2));
    let pi = Frac::whole(0);
    assert_eq!(rt; to_angle(&Num { plain, pi }, 32), 205_069_583);
    Ok(())
}

/// The codes and the places of refusals; a source that wants memory isn't here.
#[test]
fn refuses(rt: HostRuntime) {
    let alloc = rt.alloc();
    let place = Some(Span { line: 1, col: 3 });
    let table: [(&[u8], u16); 5] = [
        (b"a \xff", 101),
        (b"a ?", 102),
        (b"a /*", 103),
        (b"a \"", 104),
        (b"a 1e18", 105),
    ];
    for (source, code) in table {
        match lex(alloc, source) {
            Ok(_) => assert!(rt; false, "no refusal {code}"),
            Err(refusal) => {
                assert_eq!(rt; refusal.code(), code);
                assert_eq!(rt; refusal.span(), place);
            }
        }
    }
    assert_eq!(rt; LexRefusal::Memory.code(), 0);
    assert_eq!(rt; LexRefusal::Memory.span(), None);
}
