ghost use Rattle.std.specs.Prelude.{◌≡◌, ◌<◌, ◌≤◌, ◌^◌, IfOk};
ghost use Rattle.plan_tree.specs.Parts.{part_of};
ghost use Rattle.plan_tree.specs.Run.{frame_at as frame_of};
ghost use Rattle.plan_tree.specs.Sound.{Fits, IsSound};
ghost use Rattle.controller_machine.specs.Ctl.{after_act, entries_next, shown_of, start_ctl, want_of, with_deed};

use crate::stand::{Ending, Spot, Stand, items_in};
use crate::store::{start_frames, start_store};
use plan_tree::{Deed, Event, FrameState, Item, Part, Plan};
use qs_values::{Memory, Tape};
use std::alloc::Global;
use std::marker::Model;
use std::snapshot::Snapshot;

/// How many qubits a machine has at most.
const MOST_QUBITS: usize = 32;

/// A pulse or capture as it was played: its tick, the numbers of its port and waveform, its frame's
/// phase in 2^32-ths of a full turn and frequency in Hz, and a capture's bit.
#[derive(Clone, Copy, Debug, PartialEq, Eq)]
pub struct Played {
    pub tick: u64,
    pub port: u8,
    pub wave: u16,
    pub phase: u32,
    pub hz: u64,
    pub bit: Option<u8>,
}

/// What a controller's next act is.
#[derive(Clone, Copy, Debug, PartialEq, Eq)]
pub enum Want {
    /// An act that touches no mailbox.
    Go,
    /// None is left.
    Ended,
}

/// One controller: where it stands in its part, its variables, its frames and its log.
#[derive(Drop)]
pub struct Ctl {
    part: Snapshot<Part>,
    stand: Stand,
    store: Vec<u64>,
    frames: Vec<FrameState>,
    captured: [u32; MOST_QUBITS],
    log: Vec<Played>,
    room: u64,
}

impl Model for Ctl {
    ghost use Rattle.std.specs.Prelude.{◌+◌, ◌≤◌, vec_len};
    ghost use Rattle.std.specs.Vec.{vec_capacity};
    ghost use Rattle.controller_machine.specs.Ctl.{CtlState};
    ghost use Rattle.controller_machine.specs.steps.Left.{IsInTime};

    ghost Value = { CtlState };

    ghost view = { λ c. record {
      part = c.part.value;
      stand = c.stand;
      store = c.store.items;
      frames = c.frames.items;
      captured = c.captured;
      log = c.log.items;
      room = c.room;
    } };

    ghost invariant = { λ c. (vec_len c.log + c.room ≤ vec_capacity c.log)
        × IsInTime c.part.value.body c.stand };
}

impl Ctl {
    /// A controller at the start, with room in its log for all that it can play.
    ///
    /// # Errors
    ///
    /// `Memory` when out of memory.
    pub fn new(alloc: Global, part: &Part, plan: &Plan, tape: &Tape) -> Result<Ctl, Memory>
        requires sound { IsSound plan.now }
        requires fits { Fits plan.now tape.now }
        requires controller { part.now.controller < plan.now.controllers }
        requires part { part.now ≡ part_of plan.now part.now.controller }
        ensures { IfOk result (λ c. c ≡ start_ctl plan.now tape.now part.now.controller) }
    {
        let body = part.body.as_slice();
        let room = items_in(body);
        let log = Vec::with_capacity(alloc, room as usize)?;
        let store = start_store(
            alloc,
            plan.vars.as_slice(),
            plan.inputs.as_slice(),
            tape.inputs.as_slice(),
        )?;
        let frames = start_frames(alloc, plan.frames.as_slice())?;
        let start = Spot {
            statement: 0,
            item: 0,
            tick: 0,
        };
        let stand = start.stand(body);
        Ok(Ctl {
            part: Snapshot::of(part),
            stand,
            store,
            frames,
            captured: [0; MOST_QUBITS],
            log,
            room,
        })
    }

    /// What the next act is. It is lent the part with which the controller was made.
    pub fn next(&self, part: &Part) -> Want
        requires { part.now ≡ self.now.part }
        ensures { result ≡ want_of self.now }
    {
        match self.stand {
            Stand::At(spot) => match spot.item(part.body.as_slice()) {
                Some(Item::Own(_)) => Want::Go,
                None => Want::Ended,
            },
            Stand::Over(_, _) => Want::Ended,
        }
    }

    /// Makes the next act, which touches no mailbox. It is lent the part with which the controller
    /// was made.
    pub fn go(&mut self, part: &Part)
        requires part { part.now ≡ self.old.part }
        requires next { want_of self.old ≡ Want.Go }
        requires room { entries_next self.old ≤ self.old.room }
        ensures { self.new ≡ after_act self.old }
    {
        let body = part.body.as_slice();
        if let Stand::At(spot) = self.stand {
            if let Some(item) = spot.item(body) {
                match item {
                    Item::Own(event) => self.play(spot.tick, event),
                }
                let next = Spot {
                    item: spot.item + 1,
                    ..spot
                };
                self.stand = next.stand(body);
            }
        }
    }

    /// Logs what an event of its own plays, whose block began at this tick.
    fn play(&mut self, tick: u64, event: &Event)
        requires room { 0 < self.old.room }
        requires tick { tick < 2 ^ 61 }
        requires near { event.now.offset ≤ 2 ^ 40 }
        ensures { self.new ≡ with_deed self.old tick event.now event.now.act }
    {
        let played = match event.act {
            Deed::Pulse { frame, wave } => {
                let frame = frame_at(self.frames.as_slice(), frame);
                Played {
                    tick: tick + event.offset,
                    port: event.port,
                    wave,
                    phase: frame.phase,
                    hz: frame.hz,
                    bit: None,
                }
            }
        };
        self.log.push(played).unwrap();
        self.room -= 1;
    }

    /// What was played, in the order in which it was played. That is the order of tick and then of
    /// port.
    pub fn log(&self) -> &[Played]
        ensures { result.now ≡ self.now.log }
    {
        self.log.as_slice()
    }

    /// The variables, by number.
    pub fn store(&self) -> &[u64]
        ensures { result.now ≡ self.now.store }
    {
        self.store.as_slice()
    }

    /// The tick at which the statement of the next act begins, or at which the run ended.
    pub fn tick(&self) -> u64
        ensures { result ≡ (shown_of self.now).tick }
    {
        match self.stand {
            Stand::At(spot) => spot.tick,
            Stand::Over(_, tick) => tick,
        }
    }

    /// Whether the run has ended, and how.
    pub fn ending(&self) -> Ending
        ensures { result ≡ (shown_of self.now).ending }
    {
        match self.stand {
            Stand::At(_) => Ending::Going,
            Stand::Over(ending, _) => ending,
        }
    }
}

/// The frame of this number.
fn frame_at(frames: &[FrameState], number: u16) -> FrameState
    ensures { result ≡ frame_of frames.now number }
{
    match frames.get(number as usize) {
        Some(frame) => *frame,
        None => FrameState { phase: 0, hz: 0 },
    }
}
