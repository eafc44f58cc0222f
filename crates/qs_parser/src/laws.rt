ghost use Rattle.qs_parser.specs.Once.{NoRefusalBesideTree, RefusalOnce, TreeOnce};
ghost use Rattle.qs_parser.specs.Reading.{ReadIsSpelled};

/// A law of reading: what the account of the reader takes from the front of any tokens is the
/// spelling of a version line and of whole statements that follow the grammar within its limits.
pub fn read_is_spelled()
    ensures { ReadIsSpelled }
{}

/// A law of sources: tokens have at most one tree, those that have one aren't refused, and no tokens
/// have two refusals.
pub fn parsed_once()
    ensures tree { TreeOnce }
    ensures apart { NoRefusalBesideTree }
    ensures refusal { RefusalOnce }
{}
