ghost use Rattle.qs_values.specs.Number.{DifferenceIs, ProductIs, RatioIs, SumIs};
ghost use Rattle.qs_values.specs.Once.{OperationOnce, QuotientOnce};

/// A law of numbers: a quotient of whole numbers has one answer, and so has each operation on two numbers.
pub fn computed_once()
    ensures quotient { QuotientOnce }
    ensures sum { OperationOnce SumIs }
    ensures difference { OperationOnce DifferenceIs }
    ensures product { OperationOnce ProductIs }
    ensures ratio { OperationOnce RatioIs }
{}
