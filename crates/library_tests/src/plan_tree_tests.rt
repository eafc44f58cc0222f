use plan_tree::{Block, Deed, Event, Plan, PlanStmt, weight};
use qs_values::{List, Memory};
use std::alloc::Global;
use std::process::Abort;
use std::test::Fail;

/// A block of so many pulses.
fn make_block(alloc: Global, pulses: usize) -> Result<PlanStmt, Memory> {
    let pulse = Event {
        offset: 0,
        port: 0,
        act: Deed::Pulse { frame: 0, wave: 0 },
    };
    Ok(PlanStmt::Block(Block {
        length: 1000,
        events: List::from_vec(vec![in alloc; pulse; pulses]?),
    }))
}

/// A plan that has these statements alone.
fn make_plan(alloc: Global, body: List<PlanStmt>) -> Plan {
    Plan {
        vars: List::new(alloc),
        inputs: List::new(alloc),
        outs: List::new(alloc),
        frames: List::new(alloc),
        owner: List::new(alloc),
        controllers: 1,
        gap: 10,
        budget: 100,
        body,
    }
}

#[test]
fn weighs_blocks_and_their_events(rt: HostRuntime) -> Result<(), Fail> {
    let mut body = List::new(rt.alloc());
    assert_eq!(rt; weight(&make_plan(rt.alloc(), List::new(rt.alloc()))), 0);
    for pulses in [2, 0, 1] {
        body.push(make_block(rt.alloc(), pulses)?)?;
    }
    assert_eq!(rt; weight(&make_plan(rt.alloc(), body)), 6);
    Ok(())
}
