ghost use Rattle.timeline_board.specs.Order.{NextIs};

use crate::head::first_head;
use controller_machine::{Ctls, Played};
use std::marker::Model;

/// The entries of all logs that weren't given yet.
#[derive(Drop)]
pub struct Merge<'a, L: Ctls> {
    pub(crate) ctls: &'a L,
    /// How many entries of each log were given.
    pub(crate) places: [usize; 16],
}

impl<'a, L: Ctls> Model for Merge<'a, L> {
    ghost use Rattle.std.specs.Prelude.{List};
    ghost use Rattle.controller_machine.specs.declared.ctl.Played.{Played};

    ghost Value = { List (List Played) };

    ghost use Rattle.timeline_board.specs.Order.{logs_of};
    ghost use Rattle.timeline_board.specs.steps.Merging.{lefts_of};

    ghost view = { λ m. lefts_of (logs_of (L.states m.ctls.now)) m.places };
}

impl<'a, L: Ctls> Merge<'a, L> {
    /// Gives, of the entries that stand first in what is left of each log, the first by tick and
    /// then by port, which is the first of all that are left where each log has that order. `None`
    /// comes exactly where nothing is left.
    pub fn next(&mut self) -> Option<Played>
        ensures { NextIs self.old self.new result }
    {
        let head = first_head(self.ctls, &self.places)?;
        // The log is a slice, so the place after one of its entries fits.
        let _count = self.ctls.ctl(head.log).log().len();
        self.places[head.log as usize] += 1;
        Some(head.entry)
    }
}
