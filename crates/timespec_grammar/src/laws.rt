//! What the definitions say of tokens that a timespec begins with.
ghost use Rattle.timespec_grammar.specs.Viable.{PrefixesAreViable, ViableTokensGoOn};

/// The tokens that are viable by cases are the first tokens of timespecs, and no others.
pub fn viable_tokens_are_prefixes()
    ensures goes_on { ViableTokensGoOn }
    ensures prefixes { PrefixesAreViable }
{}
