ghost use Rattle.std.specs.Prelude.{◌≡◌, ◌<◌, All, IfOk};
ghost use Rattle.plan_tree.specs.examples.TwoBlocks.{example_part, example_parts, example_plan, example_tape};
ghost use Rattle.library_tests.specs.Ready.{IsReady};

use controller_core::{Core, Counts, Stepped};
use controller_machine::{Ctl, Ctls, Ending, Played};
use plan_tree::{Block, Deed, Event, Item, Part, PartStmt, Plan, PlanStmt, example_is_sound};
use qs_values::{FrameStart, Input, Kind, List, Memory, Name, Tape, Ty};
use std::alloc::Global;
use std::process::Abort;
use std::test::Fail;

const FIRST: Event = Event {
    offset: 0,
    port: 0,
    act: Deed::Pulse { frame: 0, wave: 4 },
};

const SECOND: Event = Event {
    offset: 10,
    port: 1,
    act: Deed::Pulse { frame: 1, wave: 5 },
};

const THIRD: Event = Event {
    offset: 5,
    port: 1,
    act: Deed::Pulse { frame: 1, wave: 6 },
};

/// Two blocks on two controllers and a hub, with a register and a number as inputs.
fn make_plan(alloc: Global) -> Result<Plan, Memory>
    ensures { IfOk result (λ p. p ≡ example_plan) }
{
    let blocks = vec![in alloc;
        PlanStmt::Block(Block {
            length: 100,
            events: List::from_vec(vec![in alloc; FIRST, SECOND]?),
        }),
        PlanStmt::Block(Block {
            length: 50,
            events: List::from_vec(vec![in alloc; THIRD]?),
        }),
    ]?;
    Ok(Plan {
        vars: make_vars(alloc)?,
        inputs: make_inputs(alloc)?,
        outs: List::new(alloc),
        frames: make_frames(alloc)?,
        owner: List::from_vec(vec![in alloc; 1, 2]?),
        controllers: 3,
        gap: 10,
        budget: 1,
        body: List::from_vec(blocks),
    })
}

fn make_vars(alloc: Global) -> Result<List<Ty>, Memory>
    ensures { IfOk result (λ vs. vs ≡ example_plan.vars) }
{
    let bit = Ty {
        kind: Kind::Bit,
        width: 1,
    };
    let byte = Ty {
        kind: Kind::Uint,
        width: 8,
    };
    Ok(List::from_vec(vec![in alloc; bit, bit, bit, byte]?))
}

fn make_inputs(alloc: Global) -> Result<List<Input>, Memory>
    ensures { IfOk result (λ is. is ≡ example_plan.inputs) }
{
    let register = Input {
        name: Name::copy_of(alloc, "b")?,
        ty: Ty {
            kind: Kind::Bits,
            width: 3,
        },
        first: 0,
    };
    let number = Input {
        name: Name::copy_of(alloc, "n")?,
        ty: Ty {
            kind: Kind::Uint,
            width: 8,
        },
        first: 3,
    };
    Ok(List::from_vec(vec![in alloc; register, number]?))
}

fn make_frames(alloc: Global) -> Result<List<FrameStart>, Memory>
    ensures { IfOk result (λ fs. fs ≡ example_plan.frames) }
{
    let first = FrameStart {
        name: Name::copy_of(alloc, "f")?,
        port: 0,
        phase: 1000,
        hz: 5000000000,
    };
    let second = FrameStart {
        name: Name::copy_of(alloc, "g")?,
        port: 1,
        phase: 7,
        hz: 6000000000,
    };
    Ok(List::from_vec(vec![in alloc; first, second]?))
}

/// The register is 6 and the number 200.
fn make_tape(alloc: Global) -> Result<Tape, Memory>
    ensures { IfOk result (λ t. t ≡ example_tape) }
{
    Ok(Tape {
        bits: List::new(alloc),
        inputs: List::from_vec(vec![in alloc; 6, 200]?),
    })
}

fn make_part(alloc: Global, controller: u8, body: Vec<PartStmt>) -> Result<Part, Memory>
    ensures { IfOk result (λ p. p ≡ example_part controller body.items) }
{
    let hub = controller == 0;
    Ok(Part {
        controller,
        reads: List::from_vec(vec![in alloc; hub, hub, hub, hub]?),
        body: List::from_vec(body),
    })
}

fn make_parts(alloc: Global) -> Result<List<Part>, Memory>
    ensures { IfOk result (λ ps. ps ≡ example_parts) }
{
    let hub = vec![in alloc; PartStmt::Wait(100), PartStmt::Wait(50)]?;
    let first = vec![in alloc;
        PartStmt::Block(100, List::from_vec(vec![in alloc; Item::Own(FIRST)]?)),
        PartStmt::Wait(50),
    ]?;
    let second = vec![in alloc;
        PartStmt::Block(100, List::from_vec(vec![in alloc; Item::Own(SECOND)]?)),
        PartStmt::Block(50, List::from_vec(vec![in alloc; Item::Own(THIRD)]?)),
    ]?;
    Ok(List::from_vec(vec![in alloc;
        make_part(alloc, 0, hub)?,
        make_part(alloc, 1, first)?,
        make_part(alloc, 2, second)?,
    ]?))
}

fn make_core(alloc: Global, parts: &List<Part>) -> Result<Core, Memory>
    requires { parts.now ≡ example_parts }
    ensures { IfOk result (IsReady parts.now) }
{
    example_is_sound();
    let plan = make_plan(alloc)?;
    let tape = make_tape(alloc)?;
    Core::new(alloc, parts, &plan, &tape, 1)
}

fn step(core: &mut Core, parts: &List<Part>, k: u8) -> Stepped
    requires ready { IsReady parts.now core.old }
    requires controller { k < 3 }
    ensures { IsReady parts.now core.new }
{
    core.step(parts, k)
}

fn run_order(core: &mut Core, parts: &List<Part>, order: &[u8]) -> Counts
    requires ready { IsReady parts.now core.old }
    requires controllers { All (λ k. k < 3) order.now }
    ensures { IsReady parts.now core.new }
{
    core.run_order(parts, order)
}

fn played(tick: u64, port: u8, wave: u16, phase: u32, hz: u64) -> Played {
    Played {
        tick,
        port,
        wave,
        phase,
        hz,
        bit: None,
    }
}

/// Each controller is done, at the last tick and with the variables of the inputs.
fn assert_done(rt: &impl Abort, ctls: &impl Ctls) {
    for k in 0..ctls.count() {
        let ctl = ctls.ctl(k);
        assert_eq!(rt; ctl.tick(), 150);
        assert_eq!(rt; ctl.ending(), Ending::Done);
        assert_eq!(rt; ctl.store(), [0, 1, 1, 200].as_slice());
    }
}

/// All pulses were played, and each controller has ended.
fn assert_ended(rt: &impl Abort, parts: &List<Part>, core: &Core)
    requires { IsReady parts.now core.now }
{
    let first = [played(0, 0, 4, 1000, 5000000000)];
    let second = [
        played(10, 1, 5, 7, 6000000000),
        played(105, 1, 6, 7, 6000000000),
    ];
    assert_eq!(rt; core.ctl(0).log(), [].as_slice());
    assert_eq!(rt; core.ctl(1).log(), first.as_slice());
    assert_eq!(rt; core.ctl(2).log(), second.as_slice());
    assert_eq!(rt; core.count(), 3);
    assert_done(rt, core);
}

#[test]
fn runs_by_an_order_and_by_sweeps(rt: HostRuntime) -> Result<(), Fail> {
    let parts = make_parts(rt.alloc())?;
    for order in [[2, 2, 2, 0].as_slice(), [1].as_slice(), [].as_slice()] {
        let mut core = make_core(rt.alloc(), &parts)?;
        let all = Counts {
            stepped: 3,
            waited: 0,
        };
        assert_eq!(rt; run_order(&mut core, &parts, order), all);
        assert_ended(&rt, &parts, &core);
        let none = Counts {
            stepped: 0,
            waited: 0,
        };
        assert_eq!(rt; run_order(&mut core, &parts, order), none);
        assert_ended(&rt, &parts, &core);
    }
    Ok(())
}

#[test]
fn steps_to_the_end_and_no_further(rt: HostRuntime) -> Result<(), Fail> {
    let parts = make_parts(rt.alloc())?;
    let mut core = make_core(rt.alloc(), &parts)?;
    let picks = [
        (0, Stepped::Ended, 150, Ending::Done),
        (2, Stepped::Stepped, 100, Ending::Going),
        (1, Stepped::Stepped, 150, Ending::Done),
        (2, Stepped::Stepped, 150, Ending::Done),
        (1, Stepped::Ended, 150, Ending::Done),
        (2, Stepped::Ended, 150, Ending::Done),
    ];
    assert_eq!(rt; core.ctl(2).tick(), 0);
    for (k, answer, tick, ending) in picks {
        assert!(rt; k < 3);
        assert_eq!(rt; step(&mut core, &parts, k), answer);
        assert_eq!(rt; core.ctl(k).tick(), tick);
        assert_eq!(rt; core.ctl(k).ending(), ending);
    }
    assert_ended(&rt, &parts, &core);
    Ok(())
}

fn is_send<T: Send>() {}

fn is_sync<T: Sync>() {}

#[test]
fn threads_may_share() {
    is_send::<Ctl>();
    is_sync::<Part>();
    is_sync::<Plan>();
    is_sync::<Tape>();
}
