//! Where a module's symbol file stands.
ghost use Rattle.std.specs.Prelude.{◌≡◌, ◌↔◌, ◌++◌, ℕ, List, codes, IfOk, IsTrue, MatchOption};
ghost use Rattle.soc_symfile.specs.Path.{stem_of, path_of};

use soc_base::{NoMemory, Text};
use soc_text::strip_front;
use std::alloc::Global;

const PDB_END: &[u8] = b".pdb";

/// The name without a final `.pdb`, in any case.
fn stem_of(name: &str) -> &str
    ensures { result.now ≡ stem_of name.now }
{
    let bytes = name.as_bytes();
    if bytes.len() < PDB_END.len() {
        return name;
    }
    let end = bytes.len() - PDB_END.len();
    if bytes[end..].eq_ignore_ascii_case(PDB_END) {
        &name[..end]
    } else {
        name
    }
}

/// Where the symbol file of a module stands in a tree of symbols: `debug_file/debug_id/name`. The
/// name is the debug file with `.sym` in place of a final `.pdb` in any case, or behind it.
pub fn symbol_path(alloc: Global, debug_file: &str, debug_id: &str) -> Result<Text, NoMemory>
    ensures { IfOk result (λ path. path ≡ path_of debug_file.now debug_id.now) }
{
    let stem = stem_of(debug_file);
    Ok(Text::from(format!(in alloc; "{debug_file}/{debug_id}/{stem}.sym")?))
}

/// What stands behind a part of a path and the slash behind it, where the path begins with them.
fn strip_part<'a>(path: &'a [u8], part: &str) -> Option<&'a [u8]>
    ensures { MatchOption result ((rest : List ℕ) → ¬ (path.now ≡ part.now ++ (codes "/" ++ rest))) (λ rest. path.now ≡ part.now ++ (codes "/" ++ rest.now)) }
{
    let Some(rest) = strip_front(path, part.as_bytes()) else {
        return None;
    };
    strip_front(rest, b"/")
}

/// Whether a path ends in the name of a debug file's symbol file.
fn is_symbol_name(name: &[u8], debug_file: &str) -> bool
    ensures { IsTrue result ↔ (name.now ≡ stem_of debug_file.now ++ codes ".sym") }
{
    match strip_front(name, stem_of(debug_file).as_bytes()) {
        Some(rest) => rest == b".sym".as_slice(),
        None => false,
    }
}

/// Whether a path is that of `symbol_path`. It takes no memory.
pub fn is_symbol_path(path: &str, debug_file: &str, debug_id: &str) -> bool
    ensures { IsTrue result ↔ (path.now ≡ path_of debug_file.now debug_id.now) }
{
    let Some(rest) = strip_part(path.as_bytes(), debug_file) else {
        return false;
    };
    let Some(name) = strip_part(rest, debug_id) else {
        return false;
    };
    is_symbol_name(name, debug_file)
}
