ghost use Rattle.qs_machine.specs.Once.{TablesOnce, TapesOnce};

/// A law of tables and tapes: bytes are read as one value, or have one first fault.
pub fn read_once()
    ensures table { TablesOnce }
    ensures tape { TapesOnce }
{}
