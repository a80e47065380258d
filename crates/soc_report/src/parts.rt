//! The parts of a path.
ghost use Rattle.std.specs.Prelude.{◌≡◌, [], slice_get, unwrap_or};
ghost use Rattle.std.specs.List.{count_by};
ghost use Rattle.soc_report.specs.inner.Parts.{is_slash, parts_of, middle_of};

const SLASH: u8 = b'/';

/// How many slashes a path has.
pub fn slashes(path: &str) -> usize
    ensures { result ≡ count_by is_slash path.now }
{
    path.as_bytes()
        .iter()
        .filter(|byte| **byte == SLASH)
        .count()
}

/// The part of a path at a place, from 0; empty where it has no such part.
fn part_at(path: &str, place: usize) -> &str
    ensures { result.now ≡ unwrap_or (slice_get (parts_of path.now) place) [] }
{
    let mut rest = path;
    let mut left = place;
    while left > 0 {
        let Some((_, others)) = rest.split_once('/') else {
            return "";
        };
        rest = others;
        left -= 1;
    }
    match rest.split_once('/') {
        Some((part, _)) => part,
        None => rest,
    }
}

/// The middle one of the parts of a path, which is the id in the path of a module's symbol file.
pub fn middle_part(path: &str) -> &str
    ensures { result.now ≡ middle_of path.now }
{
    part_at(path, (slashes(path) + 1) / 2)
}
