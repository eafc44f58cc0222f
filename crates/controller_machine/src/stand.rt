ghost use Rattle.std.specs.Prelude.{◌≡◌, ◌+◌, ◌<◌, ◌^◌, [], ◌∷◌, IsSome, drop, length, slice_get};
ghost use Rattle.std.specs.Option.{option_copied};
ghost use Rattle.controller_machine.specs.steps.Place.{item_in, stand_from};
ghost use Rattle.controller_machine.specs.steps.Left.{items_left, ticks_of};

use plan_tree::{Item, PartStmt};

/// How a controller's run has ended, if it has.
#[derive(Clone, Copy, Debug, PartialEq, Eq)]
pub enum Ending {
    /// It has not: an act is left.
    Going,
    /// It has come to the end of its part.
    Done,
}

/// A place in a part: the number of the statement, that of the item in it, and the tick at which
/// the statement begins.
#[derive(Clone, Copy)]
pub struct Spot {
    pub statement: usize,
    pub item: usize,
    pub tick: u64,
}

/// Where a controller stands in its part.
#[derive(Clone, Copy)]
pub enum Stand {
    /// Before the item at a spot, which is its next act.
    At(Spot),
    /// After its last act: how its run has ended, and at which tick.
    Over(Ending, u64),
}

impl Spot {
    /// Where a controller stands that has come to this spot: waits and ends of blocks are passed
    /// over.
    pub fn stand(self, body: &[PartStmt]) -> Stand
        requires time { self.tick + ticks_of (drop self.statement body.now) < 2 ^ 61 }
        ensures { result
            ≡ stand_from (drop self.statement body.now) self.statement self.item self.tick }
    {
        let mut spot = self;
        while let Some(stmt) = body.get(spot.statement) {
            if spot.item(body).is_some() {
                return Stand::At(spot);
            }
            spot = Spot {
                statement: spot.statement + 1,
                item: 0,
                tick: spot.tick + ticks_in(stmt),
            };
        }
        Stand::Over(Ending::Done, spot.tick)
    }

    /// The item at this spot, if there is one.
    pub fn item(self, body: &[PartStmt]) -> Option<&Item>
        ensures value { option_copied result
            ≡ item_in self.item (slice_get body.now self.statement) }
        ensures next { IsSome result → self.item + 1 < 2 ^ 64 }
    {
        match body.get(self.statement)? {
            PartStmt::Block(_, items) => {
                let _count = items.len();
                items.get(self.item)
            }
            PartStmt::Wait(_) => None,
        }
    }
}

/// The ticks that a statement takes.
fn ticks_in(stmt: &PartStmt) -> u64
    ensures { result ≡ ticks_of (stmt.now ∷ []) }
{
    match stmt {
        PartStmt::Block(ticks, _) => *ticks,
        PartStmt::Wait(ticks) => *ticks,
    }
}

/// How many items statements have.
pub fn items_in(body: &[PartStmt]) -> u64
    requires { length (items_left body.now 0) < 2 ^ 32 }
    ensures { result ≡ length (items_left body.now 0) }
{
    let mut count = 0;
    for stmt in body {
        match stmt {
            PartStmt::Block(_, items) => count += items.len() as u64,
            PartStmt::Wait(_) => {}
        }
    }
    count
}
