//! Paths of files.
ghost use Rattle.std.specs.Prelude.{◌≡◌, ◌+◌, ◌-◌, ◌<◌, ◌≤◌, length, slice_index, not};
ghost use Rattle.std.specs.List.{suffix_len};
ghost use Rattle.soc_text.specs.Paths.{is_separator, base_name_of};

fn is_separator(byte: u8) -> bool
    ensures { result ≡ is_separator byte }
{
    byte == b'/' || byte == b'\\'
}

/// Where the base name of a path begins.
fn base_start(path: &[u8]) -> usize
    ensures bound { result ≤ length path.now }
    ensures value { result + suffix_len (λ byte. not (is_separator byte)) path.now
        ≡ length path.now }
    ensures behind { 0 < result → slice_index path.now (result - 1) < 128 }
{
    let mut start = path.len();
    while start > 0 {
        if is_separator(path[start - 1]) {
            return start;
        }
        start -= 1;
    }
    start
}

/// What follows the last `/` or `\` of a path, or all of it where it has none.
pub fn base_name(path: &str) -> &str
    ensures { result.now ≡ base_name_of path.now }
{
    let start = base_start(path.as_bytes());
    &path[start..]
}
