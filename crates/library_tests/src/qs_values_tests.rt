ghost use Rattle.std.specs.Prelude.{◌≤◌};

use qs_values::{AngleVal, Boxed, Frac, Num, NumRefusal, is_name, is_reserved, to_angle};
use std::test::Fail;

/// 10^18, which both parts of a fraction are below in size.
const PART_BOUND: i64 = 1_000_000_000_000_000_000;

fn fraction(num: i64, den: i64) -> Result<Frac, NumRefusal> {
    Frac::of(num as i128, den as i128)
}

/// The constant `a/b + c/d * π` of the list `[a, b, c, d]`.
fn number(parts: [i64; 4]) -> Result<Num, NumRefusal> {
    Ok(Num {
        plain: fraction(parts[0], parts[1])?,
        pi: fraction(parts[2], parts[3])?,
    })
}

fn parts(number: Num) -> [i128; 4] {
    [
        number.plain.num(),
        number.plain.den(),
        number.pi.num(),
        number.pi.den(),
    ]
}

#[test]
fn fractions(rt: HostRuntime) {
    let table = [
        (PART_BOUND - 1, 1, Ok((999_999_999_999_999_999, 1))),
        (PART_BOUND, 1, Err(NumRefusal::TooWide)),
        (-PART_BOUND, 1, Err(NumRefusal::TooWide)),
        (1, PART_BOUND - 1, Ok((1, 999_999_999_999_999_999))),
        (1, PART_BOUND, Err(NumRefusal::TooWide)),
        (1, -PART_BOUND, Err(NumRefusal::TooWide)),
        (PART_BOUND, 10, Ok((100_000_000_000_000_000, 1))),
        (-PART_BOUND, 2 * PART_BOUND, Ok((-1, 2))),
        (3, -6, Ok((-1, 2))),
        (-3, -6, Ok((1, 2))),
        (0, 5, Ok((0, 1))),
        (0, -5, Ok((0, 1))),
        (5, 0, Err(NumRefusal::ByZero)),
        (0, 0, Err(NumRefusal::ByZero)),
    ];
    for (num, den, want) in table {
        let got = fraction(num, den).map(|quotient| (quotient.num(), quotient.den()));
        assert_eq!(rt; got, want, "{num} / {den}");
    }
}

#[derive(Clone, Copy, Debug)]
enum Operation {
    Add,
    Sub,
    Mul,
    Div,
}

fn computed(
    left: [i64; 4],
    operation: Operation,
    right: [i64; 4],
) -> Result<[i128; 4], NumRefusal> {
    let left = number(left)?;
    let right = number(right)?;
    let result = match operation {
        Operation::Add => left.add(&right),
        Operation::Sub => left.sub(&right),
        Operation::Mul => left.mul(&right),
        Operation::Div => left.div(&right),
    };
    result.map(parts)
}

/// What two numbers come to: each by the plain part and the part with pi, as quotients.
type Row = ([i64; 4], Operation, [i64; 4], Result<[i128; 4], NumRefusal>);

const NUMBERS: [Row; 18] = [
    ([1, 3, 0, 1], Operation::Add, [1, 6, 0, 1], Ok([1, 2, 0, 1])),
    (
        [1, 3, 1, 2],
        Operation::Sub,
        [1, 3, 3, 4],
        Ok([0, 1, -1, 4]),
    ),
    (
        [PART_BOUND - 1, 1, 0, 1],
        Operation::Add,
        [1, 1, 0, 1],
        Err(NumRefusal::TooWide),
    ),
    (
        [0, 1, PART_BOUND - 1, 1],
        Operation::Add,
        [0, 1, 1, 1],
        Err(NumRefusal::TooWide),
    ),
    (
        [1 - PART_BOUND, 1, 0, 1],
        Operation::Sub,
        [1, 1, 0, 1],
        Err(NumRefusal::TooWide),
    ),
    (
        [0, 1, 1, 1],
        Operation::Mul,
        [0, 1, 1, 1],
        Err(NumRefusal::PiTimesPi),
    ),
    ([0, 1, 0, 1], Operation::Mul, [1, 2, 1, 1], Ok([0, 1, 0, 1])),
    (
        [3, 1, 0, 1],
        Operation::Mul,
        [1, 6, -1, 9],
        Ok([1, 2, -1, 3]),
    ),
    (
        [1, 6, -1, 9],
        Operation::Mul,
        [3, 1, 0, 1],
        Ok([1, 2, -1, 3]),
    ),
    (
        [999_999_999, 1, 0, 1],
        Operation::Mul,
        [1_000_000_001, 1, 0, 1],
        Ok([999_999_999_999_999_999, 1, 0, 1]),
    ),
    (
        [1_000_000_000, 1, 0, 1],
        Operation::Mul,
        [1_000_000_000, 1, 0, 1],
        Err(NumRefusal::TooWide),
    ),
    ([0, 1, 1, 1], Operation::Div, [0, 1, 1, 1], Ok([1, 1, 0, 1])),
    ([0, 1, 2, 1], Operation::Div, [0, 1, 4, 1], Ok([1, 2, 0, 1])),
    ([0, 1, 0, 1], Operation::Div, [0, 1, 1, 1], Ok([0, 1, 0, 1])),
    (
        [1, 1, 0, 1],
        Operation::Div,
        [0, 1, 1, 1],
        Err(NumRefusal::ByPi),
    ),
    (
        [0, 1, 1, 1],
        Operation::Div,
        [1, 1, 1, 1],
        Err(NumRefusal::ByPi),
    ),
    (
        [1, 1, 1, 1],
        Operation::Div,
        [0, 1, 0, 1],
        Err(NumRefusal::ByZero),
    ),
    (
        [1, 2, 1, 1],
        Operation::Div,
        [-1, 2, 0, 1],
        Ok([-1, 1, -2, 1]),
    ),
];

#[test]
fn numbers(rt: HostRuntime) {
    for (left, operation, right, want) in NUMBERS {
        assert_eq!(rt;
            computed(left, operation, right),
            want,
            "{left:?} {operation:?} {right:?}"
        );
    }
}

fn angle(parts: [i64; 4], width: u8) -> Result<AngleVal, NumRefusal>
    requires low { 1 ≤ width }
    requires high { width ≤ 32 }
{
    Ok(AngleVal {
        width,
        k: to_angle(&number(parts)?, width),
    })
}

#[test]
fn angles(rt: HostRuntime) {
    let table = [
        ([3, 10, 0, 1], 32, 205_069_583),
        ([0, 1, 1, 2], 32, 1_073_741_824),
        ([0, 1, -1, 2], 32, 3_221_225_472),
        ([1, 3, 0, 1], 32, 227_855_092),
        ([-1, 3, 0, 1], 32, 4_067_112_204),
        ([100_000_000_000_000_000, 1, 0, 1], 32, 2_444_266_046),
        ([1 - PART_BOUND, 1, 1 - PART_BOUND, 1], 32, 4_158_192_240),
        ([1, PART_BOUND - 1, 1, PART_BOUND - 1], 32, 0),
        ([0, 1, 1, 3], 20, 174_763),
        ([0, 1, -1, 3], 20, 873_813),
        ([1, 2, 1, 4], 8, 52),
        ([0, 1, 1, 1], 1, 1),
        ([0, 1, 1, 4], 1, 0),
        ([0, 1, 1, 2], 1, 1),
        ([1, 1, 1, 1], 1, 1),
        ([2, 1, 0, 1], 1, 1),
    ];
    for (parts, width, want) in table {
        assert!(rt; 1 <= width && width <= 32);
        let got = angle(parts, width).map(|angle| angle.k);
        assert_eq!(rt; got, Ok(want), "{parts:?} in {width} bits");
    }
}

#[test]
fn names(rt: HostRuntime) {
    let table = [
        ("x", true),
        ("_1", true),
        ("π", true),
        ("µs", true),
        ("x٣", false),
        ("1a", false),
        ("", false),
        ("a b", false),
        ("gate", false),
        ("mutable", false),
        ("Gate", true),
        ("pragma", true),
        ("defcal", false),
        ("defcals", true),
        ("#dim", false),
    ];
    for (text, want) in table {
        assert_eq!(rt; is_name(text), want, "{text}");
    }
    assert!(rt; is_reserved("waveform") && !is_reserved("wave"));
}

#[test]
fn boxes(rt: HostRuntime) -> Result<(), Fail> {
    let boxed = Boxed::new(rt.alloc(), 7)?;
    assert_eq!(rt; *boxed.get(), 7);
    assert_eq!(rt; boxed.into_inner(), 7);
    Ok(())
}
