//! Words parted by spaces.
ghost use Rattle.std.specs.Prelude.{◌≡◌, ◌<◌, [], ◌∷◌, ◌++◌, length, MatchOption};
ghost use Rattle.soc_cfi.specs.Words.{space, parts, tokens};

/// What stands before the first space, and what stands behind it where there is one.
pub fn split_part(text: &str) -> (&str, Option<&str>)
    ensures parts { MatchOption result.1 (parts text.now ≡ result.0.now ∷ [])
        (λ later. parts text.now ≡ result.0.now ∷ parts later.now) }
    ensures text { MatchOption result.1 (result.0.now ≡ text.now)
        (λ later. text.now ≡ result.0.now ++ space ∷ later.now) }
{
    match text.split_once(' ') {
        Some((part, later)) => (part, Some(later)),
        None => (text, None),
    }
}

/// The first token, and what stands behind it.
pub fn split_token(text: &str) -> Option<(&str, &str)>
    ensures { MatchOption result (tokens text.now ≡ [])
        (λ split. (tokens text.now ≡ split.0.now ∷ tokens split.1.now)
        × (length split.1.now < length text.now)) }
{
    let mut rest = text;
    loop {
        let (part, later) = split_part(rest);
        if !part.is_empty() {
            return Some((part, later.unwrap_or("")));
        }
        rest = later?;
    }
}
