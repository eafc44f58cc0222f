ghost use Rattle.std.specs.Cmp.{IsTotalOrder};
ghost use Rattle.plan_tree.specs.examples.TwoBlocks.{example_plan, example_tape};
ghost use Rattle.plan_tree.specs.Laws.{PlaysStayApart};
ghost use Rattle.plan_tree.specs.Sound.{Fits, IsSound, start_cmp};

/// Offset and then port is a total order.
pub fn starts_are_ordered()
    ensures { IsTotalOrder start_cmp }
{}

/// Where no two events of a list begin together on a port, no two of them that play do.
pub fn plays_stay_apart()
    ensures { PlaysStayApart }
{}

/// There is a sound plan, and a tape that fits it: the worked example.
pub fn example_is_sound()
    ensures sound { IsSound example_plan }
    ensures fits { Fits example_plan example_tape }
{}
