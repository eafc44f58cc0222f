ghost use Rattle.qs_const.specs.Once.{ComesToOne};

/// A law of expressions: one comes to one value, or to one first cause, or to neither.
pub fn comes_to_one()
    ensures { ComesToOne }
{}
