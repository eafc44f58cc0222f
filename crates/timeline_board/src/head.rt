ghost use Rattle.std.specs.Prelude.{◌≡◌, ◌+◌, ◌<◌, List, length, slice_get};
ghost use Rattle.controller_machine.specs.declared.ctl.Played.{Played as Entry};
ghost use Rattle.timeline_board.specs.Order.{comes_before, logs_of};
ghost use Rattle.timeline_board.specs.steps.Merging.{IsFirstOf, lefts_of};

use controller_machine::{Ctls, Played};

/// An entry that stands first in what is left of a log, and that log's number.
#[derive(Clone, Copy)]
pub struct Head {
    pub log: u8,
    pub entry: Played,
}

/// Of the entries that stand first in what is left of each log, the one that comes first.
pub fn first_head<L: Ctls>(ctls: &L, places: &[usize; 16]) -> Option<Head>
    ensures first { IsFirstOf (lefts_of (logs_of (L.states ctls.now)) places.now)
        (length (L.states ctls.now)) result }
    ensures few { length (L.states ctls.now) < 17 }
{
    let mut first = None;
    for k in 0..ctls.count() {
        let entry = left_of(ctls.ctl(k).log(), places[k as usize]);
        first = earlier(first, k, entry);
    }
    first
}

/// The first entry that is left of a log, of which so many entries were given.
fn left_of(log: &[Played], given: usize) -> Option<Played>
    ensures { result ≡ slice_get log.now given }
{
    log.get(given).copied()
}

/// The one that comes first of the first entries of the logs up to this one, by that of the logs
/// before it.
fn earlier(first: Option<Head>, log: u8, entry: Option<Played>) -> Option<Head>
    ensures { (lefts : List (List Entry)) (left : List Entry) → IsFirstOf lefts log first
        → slice_get lefts log ≡ Some left → entry ≡ slice_get left 0
        → IsFirstOf lefts (log + 1) result }
{
    let Some(entry) = entry else {
        return first;
    };
    let Some(head) = first else {
        return Some(Head { log, entry });
    };
    if comes_before(&entry, &head.entry) {
        Some(Head { log, entry })
    } else {
        Some(head)
    }
}

/// Whether an entry comes before another: by tick, and at one tick by port.
fn comes_before(entry: &Played, other: &Played) -> bool
    ensures { result ≡ comes_before entry.now other.now }
{
    (entry.tick, entry.port) < (other.tick, other.port)
}
