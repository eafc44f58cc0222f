ghost use Rattle.std.specs.Prelude.{◌≤◌, ◌^◌, All, IfOk, OnOk, length};
ghost use Rattle.box_schedule.specs.Placement.{IsPlain};

use box_schedule::{BoxRefusal, TBlock, TOp, schedule};
use qs_values::{Affine, List, Span};
use std::alloc::{AllocError, Global};
use std::process::Abort;
use std::test::Fail;

/// Equal operations in a row: how many, on which qubits, and how many ticks each lasts.
type Ops = (u32, &'static [u8], i64);

/// A block's length, that it is too long, or the line of its first negative operation.
enum Answer {
    Length(u64),
    TooLong,
    NegativeAt(u32),
}

/// A block, its first starts where it isn't refused, and its answer.
struct Case {
    ops: &'static [Ops],
    starts: &'static [u64],
    answer: Answer,
}

const UP: &[u8] = &[
    0, 1, 2, 3, 4, 5, 6, 7, 8, 9, 10, 11, 12, 13, 14, 15, 16, 17, 18, 19, 20, 21, 22, 23, 24, 25,
    26, 27, 28, 29, 30, 31,
];

const DOWN: &[u8] = &[
    31, 30, 29, 28, 27, 26, 25, 24, 23, 22, 21, 20, 19, 18, 17, 16, 15, 14, 13, 12, 11, 10, 9, 8,
    7, 6, 5, 4, 3, 2, 1, 0,
];

const LONG: i64 = 1 << 32;

const CASES: [Case; 31] = [
    Case {
        ops: &[],
        starts: &[],
        answer: Answer::Length(0),
    },
    // one qubit, and two
    Case {
        ops: &[(1, &[0], 5), (1, &[0], 7)],
        starts: &[0, 5],
        answer: Answer::Length(12),
    },
    Case {
        ops: &[(1, &[0], 5), (1, &[1], 7)],
        starts: &[0, 0],
        answer: Answer::Length(7),
    },
    Case {
        ops: &[(1, &[0], 9), (1, &[1], 2), (1, &[1], 2)],
        starts: &[0, 0, 2],
        answer: Answer::Length(9),
    },
    // `cx $0, $1; delay[3dt] $1; x $1;`
    Case {
        ops: &[(1, &[0, 1], 8), (1, &[1], 3), (1, &[1], 4)],
        starts: &[0, 8, 11],
        answer: Answer::Length(15),
    },
    Case {
        ops: &[(1, &[0], 5), (1, &[1], 7), (1, &[0, 1], 8), (1, &[0], 1)],
        starts: &[0, 0, 7, 15],
        answer: Answer::Length(16),
    },
    // a barrier, which others don't wait for
    Case {
        ops: &[(1, &[0], 5), (1, &[0, 1], 0), (1, &[1], 3), (1, &[2], 1)],
        starts: &[0, 5, 5, 0],
        answer: Answer::Length(8),
    },
    // all qubits, forwards and backwards, and three in all orders
    Case {
        ops: &[
            (1, &[31], 4),
            (1, UP, 2),
            (1, DOWN, 3),
            (1, &[0], 1),
            (1, &[31], 1),
        ],
        starts: &[0, 4, 6, 9, 9],
        answer: Answer::Length(10),
    },
    Case {
        ops: &[
            (1, &[2], 9),
            (1, &[0, 1, 2], 1),
            (1, &[0, 2, 1], 1),
            (1, &[1, 0, 2], 1),
            (1, &[1, 2, 0], 1),
            (1, &[2, 0, 1], 1),
            (1, &[2, 1, 0], 1),
        ],
        starts: &[0, 9, 10, 11, 12, 13, 14],
        answer: Answer::Length(15),
    },
    // the last qubit that has a number
    Case {
        ops: &[
            (1, &[255], 4),
            (1, &[254], 2),
            (1, &[0, 255], 3),
            (1, &[0], 1),
            (1, &[254], 1),
        ],
        starts: &[0, 0, 4, 7, 2],
        answer: Answer::Length(8),
    },
    // no ticks, no qubits, and a qubit twice
    Case {
        ops: &[(1, &[0], 0), (1, &[0], 0)],
        starts: &[0, 0],
        answer: Answer::Length(0),
    },
    Case {
        ops: &[(1, &[0], 5), (1, &[], 3), (1, &[0], 1)],
        starts: &[0, 0, 5],
        answer: Answer::Length(6),
    },
    Case {
        ops: &[(1, &[3], 5), (1, &[3, 3], 2), (1, &[3], 1)],
        starts: &[0, 5, 7],
        answer: Answer::Length(8),
    },
    // 2^40 ticks, and more
    Case {
        ops: &[(256, &[0], LONG)],
        starts: &[0, 1 << 32, 1 << 33],
        answer: Answer::Length(1 << 40),
    },
    Case {
        ops: &[(256, &[0], LONG), (1, &[1], 1), (1, &[0], 0)],
        starts: &[0, 1 << 32],
        answer: Answer::Length(1 << 40),
    },
    Case {
        ops: &[(256, &[0], LONG), (1, &[0], 1)],
        starts: &[],
        answer: Answer::TooLong,
    },
    Case {
        ops: &[(257, &[0], LONG)],
        starts: &[],
        answer: Answer::TooLong,
    },
    Case {
        ops: &[(257, &[0], LONG), (1, &[1], 1)],
        starts: &[],
        answer: Answer::TooLong,
    },
    // below 0 ticks: alone, first, later, without a qubit, and two of them
    Case {
        ops: &[(1, &[0], -1)],
        starts: &[],
        answer: Answer::NegativeAt(1),
    },
    Case {
        ops: &[(1, &[0], -1), (1, &[0], 5)],
        starts: &[],
        answer: Answer::NegativeAt(1),
    },
    Case {
        ops: &[(1, &[0], 5), (1, &[1], 7), (1, &[0], -2)],
        starts: &[],
        answer: Answer::NegativeAt(3),
    },
    Case {
        ops: &[(1, &[0], 5), (1, &[], -3), (1, &[0], 1)],
        starts: &[],
        answer: Answer::NegativeAt(2),
    },
    Case {
        ops: &[(1, &[0], 5), (1, &[1], -2), (1, &[0], 1), (1, &[0], -4)],
        starts: &[],
        answer: Answer::NegativeAt(2),
    },
    // as far below 0 as an operation lasts, and as far above
    Case {
        ops: &[(1, &[0], -LONG)],
        starts: &[],
        answer: Answer::NegativeAt(1),
    },
    Case {
        ops: &[(1, &[0], LONG), (1, &[0], -LONG), (1, &[1], LONG)],
        starts: &[],
        answer: Answer::NegativeAt(2),
    },
    Case {
        ops: &[(1, &[0], LONG)],
        starts: &[0],
        answer: Answer::Length(1 << 32),
    },
    // below 0 ticks and 2^40, and more
    Case {
        ops: &[(256, &[0], LONG), (1, &[1], -1)],
        starts: &[],
        answer: Answer::NegativeAt(257),
    },
    Case {
        ops: &[(256, &[0], LONG), (1, &[0], 1), (1, &[0], -1)],
        starts: &[],
        answer: Answer::TooLong,
    },
    Case {
        ops: &[(1, &[0], -1), (257, &[0], LONG)],
        starts: &[],
        answer: Answer::TooLong,
    },
    // an end before an earlier one, which a later start doesn't forget
    Case {
        ops: &[(255, &[0], LONG), (1, &[0], -LONG), (1, &[0], LONG)],
        starts: &[],
        answer: Answer::NegativeAt(256),
    },
    Case {
        ops: &[(255, &[0], LONG), (1, &[0], -LONG), (2, &[0], LONG)],
        starts: &[],
        answer: Answer::TooLong,
    },
];

/// An operation that isn't a box, which reads no stated length.
fn make_op(
    rt: &impl Abort,
    alloc: Global,
    line: u32,
    qubits: &[u8],
    ticks: i64,
    fixed: Option<u64>,
) -> Result<TOp, AllocError>
    ensures { IfOk result IsPlain }
{
    assert!(rt; -LONG <= ticks && ticks <= LONG);
    Ok(TOp {
        span: Span { line, col: 1 },
        qubits: List::from_vec(Vec::from_slice(alloc, qubits)?),
        length: Affine {
            ticks,
            parts: List::new(alloc),
        },
        inner: None,
        fixed,
        barrier: ticks == 0,
    })
}

/// Puts equal operations after others, each on a line of its own.
fn add_ops(
    rt: &impl Abort,
    alloc: Global,
    ops: &mut Vec<TOp>,
    group: &Ops,
    fixed: Option<u64>,
) -> Result<(), AllocError>
    requires { All IsPlain ops.old.items }
    ensures { OnOk result (All IsPlain ops.new.items) }
{
    let (times, qubits, ticks) = *group;
    for _ in 0..times {
        assert!(rt; ops.len() < 1 << 24);
        let line = ops.len() as u32 + 1;
        ops.push(make_op(rt, alloc, line, qubits, ticks, fixed)?)?;
    }
    Ok(())
}

fn make_block(
    rt: &impl Abort,
    alloc: Global,
    groups: &[Ops],
    fixed: Option<u64>,
) -> Result<TBlock, AllocError>
    ensures plain { IfOk result (λ block. All IsPlain block.ops) }
    ensures count { IfOk result (λ block. length block.ops ≤ 2 ^ 24) }
{
    let mut ops = Vec::new(alloc);
    for group in groups {
        add_ops(rt, alloc, &mut ops, group, fixed)?;
    }
    assert!(rt; ops.len() <= 1 << 24);
    Ok(TBlock {
        ops: List::from_vec(ops),
    })
}

/// The length or the refusal of an answer. An operation stands at the head of its line.
fn wanted(answer: &Answer) -> Result<u64, BoxRefusal> {
    match answer {
        Answer::Length(length) => Ok(*length),
        Answer::TooLong => Err(BoxRefusal::TickOut {
            span: Span { line: 1, col: 1 },
        }),
        Answer::NegativeAt(line) => Err(BoxRefusal::DelayNegative {
            span: Span {
                line: *line,
                col: 1,
            },
        }),
    }
}

/// Schedules a block whose operations all state this length, or none.
fn answers(
    rt: &impl Abort,
    alloc: Global,
    name: usize,
    case: &Case,
    fixed: Option<u64>,
) -> Result<(), Fail> {
    let block = make_block(rt, alloc, case.ops, fixed)?;
    let answer = wanted(&case.answer);
    match schedule(alloc, &block, &List::new(alloc)) {
        Ok(placed) => {
            assert_eq!(rt; placed.starts.len(), block.ops.len(), "case {name}");
            assert!(rt;
                placed.starts.as_slice().starts_with(case.starts),
                "case {name}"
            );
            assert_eq!(rt; Ok(placed.length), answer, "case {name}");
        }
        Err(refusal) => assert_eq!(rt; Err(refusal), answer, "case {name}"),
    }
    Ok(())
}

#[test]
fn places_each_operation(rt: HostRuntime) -> Result<(), Fail> {
    for (i, case) in CASES.iter().enumerate() {
        answers(&rt, rt.alloc(), i, case, None)?;
        answers(&rt, rt.alloc(), i, case, Some(LONG as u64))?;
    }
    Ok(())
}

#[test]
fn numbers_each_refusal(rt: HostRuntime) -> Result<(), Fail> {
    let span = Span { line: 1, col: 1 };
    assert_eq!(rt; BoxRefusal::TickOut { span }.code(), 203);
    assert_eq!(rt; BoxRefusal::DelayNegative { span }.code(), 204);
    Ok(())
}
