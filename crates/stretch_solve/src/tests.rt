ghost use Rattle.std.specs.Prelude.{◌≡◌, ◌<◌, ◌≤◌, ◌^◌, [], unsigned_abs, All, IfOk};
ghost use Rattle.stretch_solve.specs.Solutions.{IsEquation};

use crate::{Solution, StretchRefusal, solve};
use qs_values::{Group, List, Row};
use std::alloc::{AllocError, Global};
use std::test::Fail;

/// As many unknowns as this, and no equation.
fn make_free(alloc: Global, count: u32) -> Result<Group, AllocError>
    ensures { IfOk result (λ group. group.rows ≡ []) }
{
    let mut unknowns = List::new(alloc);
    for unknown in 0..count {
        unknowns.push(unknown)?;
    }
    Ok(Group {
        unknowns,
        rows: List::new(alloc),
    })
}

/// One unknown, and one equation.
fn make_single(alloc: Global, coef: i64, sum: i64) -> Result<Group, AllocError>
    requires coef { unsigned_abs coef ≤ 8190 }
    requires sum { unsigned_abs sum < 2 ^ 49 }
    ensures { IfOk result (λ group. All (IsEquation group) group.rows) }
{
    let mut unknowns = List::new(alloc);
    unknowns.push(0)?;
    let mut coefs = List::new(alloc);
    coefs.push(coef)?;
    let mut rows = List::new(alloc);
    rows.push(Row { coefs, sum })?;
    Ok(Group { unknowns, rows })
}

#[test]
fn solves_without_equations(rt: HostRuntime) -> Result<(), Fail> {
    let none = Solution {
        count: 0,
        nums: [0; 4],
        den: 1,
    };
    assert_eq!(rt; solve(&make_free(rt.alloc(), 0)?), Ok(none));
    assert_eq!(rt;
        solve(&make_free(rt.alloc(), 4)?),
        Err(StretchRefusal::StretchMany)
    );
    assert_eq!(rt;
        solve(&make_free(rt.alloc(), 5)?),
        Err(StretchRefusal::GroupTooLarge)
    );
    Ok(())
}

#[test]
fn solves_an_equation(rt: HostRuntime) -> Result<(), Fail> {
    let half = Solution {
        count: 1,
        nums: [98, 0, 0, 0],
        den: 2,
    };
    assert_eq!(rt; solve(&make_single(rt.alloc(), 2, 98)?), Ok(half));
    assert_eq!(rt; solve(&make_single(rt.alloc(), -2, -98)?), Ok(half));
    assert_eq!(rt;
        solve(&make_single(rt.alloc(), 0, 1)?),
        Err(StretchRefusal::StretchNone)
    );
    assert_eq!(rt;
        solve(&make_single(rt.alloc(), 1, -1)?),
        Err(StretchRefusal::StretchNegative)
    );
    Ok(())
}

#[test]
fn numbers_each_refusal(rt: HostRuntime) -> Result<(), Fail> {
    assert_eq!(rt; StretchRefusal::StretchNone.code(), 191);
    assert_eq!(rt; StretchRefusal::StretchMany.code(), 192);
    assert_eq!(rt; StretchRefusal::StretchNegative.code(), 193);
    assert_eq!(rt; StretchRefusal::GroupTooLarge.code(), 194);
    Ok(())
}
