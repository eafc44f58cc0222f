ghost use Rattle.qs_lexer.specs.Once.{FaultOnce, NoFaultBesideTokens, TokensOnce};

/// A law of sources: one has one list of tokens, or one first fault.
pub fn lexed_once()
    ensures tokens { TokensOnce }
    ensures apart { NoFaultBesideTokens }
    ensures fault { FaultOnce }
{}
