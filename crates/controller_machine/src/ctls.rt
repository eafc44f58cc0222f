ghost use Rattle.std.specs.Prelude.{◌≡◌, ◌<◌, ◌≤◌, List, Some, length, slice_get};
ghost use Rattle.controller_machine.specs.Ctl.{CtlState};

use crate::ctl::Ctl;

/// Controllers in order of their numbers, from 1 to 16 of them.
pub trait Ctls {
    ghost states: { Self → List CtlState };

    /// How many there are.
    fn count(&self) -> u8
        ensures all { result ≡ length (states self.now) }
        ensures some { 1 ≤ result }
        ensures few { result ≤ 16 };

    /// Controller `k`.
    fn ctl(&self, k: u8) -> &Ctl
        requires controller { k < length (states self.now) }
        ensures { slice_get (states self.now) k ≡ Some result.now };
}
