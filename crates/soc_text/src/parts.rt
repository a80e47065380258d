//! Fronts and backs of a list of bytes.

ghost use Rattle.std.specs.Prelude.{◌≡◌, ◌++◌, List, ℕ, take, drop, MatchOption};

/// What stands behind `front`, where the bytes begin with it.
pub fn strip_front<'a>(bytes: &'a [u8], front: &[u8]) -> Option<&'a [u8]>
    ensures { MatchOption result ((rest : List ℕ) → ¬ (bytes.now ≡ front.now ++ rest))
        (λ rest. bytes.now ≡ front.now ++ rest.now) }
{
    bytes.strip_prefix(front)
}

/// What stands before `back`, where the bytes end with it.
pub fn strip_back<'a>(bytes: &'a [u8], back: &[u8]) -> Option<&'a [u8]>
    ensures { MatchOption result ((rest : List ℕ) → ¬ (bytes.now ≡ rest ++ back.now))
        (λ rest. bytes.now ≡ rest.now ++ back.now) }
{
    bytes.strip_suffix(back)
}

/// The bytes from `place` on; none where it lies past the end.
pub fn after(bytes: &[u8], place: usize) -> &[u8]
    ensures { result.now ≡ drop place bytes.now }
{
    if place < bytes.len() {
        &bytes[place..]
    } else {
        &bytes[bytes.len()..]
    }
}

/// The first `place` bytes; all of them where it lies past the end.
pub fn before(bytes: &[u8], place: usize) -> &[u8]
    ensures { result.now ≡ take place bytes.now }
{
    if place < bytes.len() {
        &bytes[..place]
    } else {
        bytes
    }
}
