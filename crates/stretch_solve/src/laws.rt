ghost use Rattle.stretch_solve.specs.Once.{SolvedOnce};

/// A law of groups: two answers for one group are the same refusal, or have the same fractions.
pub fn solved_once()
    ensures { SolvedOnce }
{}
