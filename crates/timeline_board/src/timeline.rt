ghost use Rattle.std.specs.Prelude.{◌≡◌};
ghost use Rattle.timeline_board.specs.Order.{logs_of};

use crate::merging::Merge;
use controller_machine::Ctls;

/// The entries of all controllers, of which none was given yet.
pub fn merge<L: Ctls>(ctls: &L) -> Merge<'_, L>
    ensures { result ≡ logs_of (L.states ctls.now) }
{
    Merge {
        ctls,
        places: [0; 16],
    }
}
