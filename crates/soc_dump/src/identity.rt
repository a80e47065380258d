//! How a module names its debug file.
ghost use Rattle.std.specs.Prelude.{◌≡◌, ◌≤◌, ◌==◌, length, IfOk, IsTrue, map, slice_index, string_bytes};
ghost use Rattle.std.specs.List.{before_first};
ghost use Rattle.soc_text.specs.Paths.{base_name_of};
ghost use Rattle.soc_dump.specs.Identity.{is_pdb, is_build_id, guid_text, pdb_id_of, build_id_of, pdb_path_of, debug_id_of, debug_file_of, IfShort};
ghost use Rattle.soc_dump.specs.Views.{module_entry};

use crate::field::narrow;
use crate::layout::*;
use crate::modules::Module;
use crate::utf16::name_part;
use memchr::{memchr, memrchr2};
use soc_base::{NoMemory, Text};
use std::alloc::Global;

// The places of a GUID's bytes in the order in which they are printed.
const GUID_ORDER: [usize; 16] = [3, 2, 1, 0, 5, 4, 7, 6, 8, 9, 10, 11, 12, 13, 14, 15];

/// Whether a code view record names a PDB file.
fn names_pdb(bytes: &[u8]) -> bool
    ensures { result ≡ is_pdb bytes.now }
{
    PDB_FILE <= bytes.len() && narrow(bytes, CODE_VIEW_KIND) == PDB_KIND
}

/// Whether a code view record holds an ELF build id.
fn holds_build_id(bytes: &[u8]) -> bool
    ensures { result ≡ is_build_id bytes.now }
{
    CODE_VIEW_ID <= bytes.len() && narrow(bytes, CODE_VIEW_KIND) == BUILD_ID_KIND
}

/// A byte of an id; a byte past its end is 0.
fn byte_at(id: &[u8], at: usize) -> u8
    ensures { result ≡ slice_index id.now at }
{
    if at < id.len() { id[at] } else { 0 }
}

/// The bytes of an id at some places, in the places' order.
fn bytes_at(alloc: Global, id: &[u8], places: &[usize]) -> Result<Vec<u8>, NoMemory>
    ensures { IfOk result (λ bytes. bytes.items ≡ map (λ at. slice_index id.now at) places.now) }
{
    let bytes: Vec<u8> = places.iter().map(|at| byte_at(id, *at)).collect(alloc)?;
    Ok(bytes)
}

/// The digits of a GUID. Bytes past the end count as zeros.
fn guid_digits(alloc: Global, guid: &[u8]) -> Result<String, NoMemory>
    ensures { IfOk result (λ text. string_bytes text ≡ guid_text guid.now) }
{
    let bytes = bytes_at(alloc, guid, &GUID_ORDER)?;
    Ok(hex::encode_upper(alloc, bytes.as_slice())?)
}

/// The id of a PDB file.
fn pdb_id(alloc: Global, bytes: &[u8]) -> Result<Text, NoMemory>
    requires { IsTrue (is_pdb bytes.now) }
    ensures { IfOk result (λ text. text ≡ pdb_id_of bytes.now) }
{
    let guid = guid_digits(alloc, &bytes[CODE_VIEW_ID..])?;
    let age = narrow(bytes, PDB_AGE);
    Ok(Text::from(format!(in alloc; "{guid}{age:X}")?))
}

/// The id that stands for a build id.
fn build_id(alloc: Global, bytes: &[u8]) -> Result<Text, NoMemory>
    requires { IsTrue (is_build_id bytes.now) }
    ensures { IfOk result (λ text. text ≡ build_id_of bytes.now) }
{
    let guid = guid_digits(alloc, &bytes[CODE_VIEW_ID..])?;
    Ok(Text::from(format!(in alloc; "{guid}0")?))
}

/// The id that a module's debug file has: the GUID and the age of a PDB file, or the first sixteen
/// bytes of a build id as a GUID and `0`. It is empty where no such record stands.
pub fn debug_id(alloc: Global, module: &Module<'_>) -> Result<Text, NoMemory>
    ensures { IfOk result (λ text. text ≡ debug_id_of «module».now.code_view.now) }
{
    let bytes = module.code_view;
    if names_pdb(bytes) {
        return pdb_id(alloc, bytes);
    }
    if holds_build_id(bytes) {
        return build_id(alloc, bytes);
    }
    Text::of(alloc, "")
}

/// What stands before the first NUL, or all.
fn before_nul(bytes: &[u8]) -> &[u8]
    ensures { result.now ≡ before_first (λ byte. byte == 0) bytes.now }
{
    match memchr(0, bytes) {
        Some(end) => &bytes[..end],
        None => bytes,
    }
}

/// What follows the last `/` or `\\` of a path.
fn name_of(path: &[u8]) -> &[u8]
    ensures { result.now ≡ base_name_of path.now }
{
    match memrchr2(b'/', b'\\', path) {
        Some(place) => &path[place + 1..],
        None => path,
    }
}

/// The name of a PDB file.
fn pdb_name(bytes: &[u8]) -> &[u8]
    requires { IsTrue (is_pdb bytes.now) }
    ensures { result.now ≡ base_name_of (pdb_path_of bytes.now) }
{
    name_of(before_nul(&bytes[PDB_FILE..]))
}

/// The name of a module's debug file: the file name of a PDB file's path, or the module's own name
/// for a build id. It is empty where no such record stands.
pub fn debug_file(alloc: Global, module: &Module<'_>) -> Result<Text, NoMemory>
    ensures { IfOk result (λ text. text ≡ debug_file_of (module_entry «module».now)) }
{
    let bytes = module.code_view;
    if names_pdb(bytes) {
        return Text::lossy(alloc, pdb_name(bytes));
    }
    if holds_build_id(bytes) {
        return module.name(alloc);
    }
    Text::of(alloc, "")
}

/// How many bytes that name has at least, by what it would be decoded from.
fn least_length(module: &Module<'_>) -> usize
    ensures { result ≤ length (debug_file_of (module_entry «module».now)) }
{
    let bytes = module.code_view;
    if names_pdb(bytes) {
        return pdb_name(bytes).len();
    }
    if holds_build_id(bytes) {
        return name_part(module.path).len() / 2;
    }
    0
}

/// The name of a module's debug file, or `None` where it has more than `most` bytes. Where already
/// what it would be decoded from is so long, nothing is decoded.
pub fn short_debug_file(
    alloc: Global,
    module: &Module<'_>,
    most: usize,
) -> Result<Option<Text>, NoMemory>
    ensures { IfOk result (IfShort most (debug_file_of (module_entry «module».now))) }
{
    if least_length(module) > most {
        return Ok(None);
    }
    Ok(Some(debug_file(alloc, module)?))
}
