//! Laws of the definitions.
ghost use Rattle.std.specs.Prelude.{◌≡◌, ℕ, List, map};
ghost use Rattle.soc_cfi.specs.Rules.{rules_of};
ghost use Rattle.soc_cfi.specs.TokenRules.{by_tokens, token_rules};
ghost use Rattle.soc_cfi.specs.Words.{tokens};

/// The rules of a text are those of its tokens: a token that ends in a colon begins a rule, whose
/// tokens are those up to the next such one. So spaces part the tokens, and do nothing else.
pub fn rules_are_of_tokens()
    ensures { (text : List ℕ) → map by_tokens (rules_of text) ≡ token_rules (tokens text) }
{}
