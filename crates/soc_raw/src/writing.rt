//! The parts of a record, written.
ghost use Rattle.std.specs.Prelude.{◌≡◌, ◌<◌, ◌^◌, ◌++◌, length, flat_map, OnOk};
ghost use Rattle.soc_base.specs.Cursor.{counted};
ghost use Rattle.soc_raw.specs.Record.{pair_text, pairs_text};
ghost use Rattle.soc_raw.specs.inner.Writing.{Extends};

use soc_base::{Blobs, NoMemory, Texts};

/// Writes the bytes.
pub fn put_bytes(out: &mut Vec<u8>, bytes: &[u8]) -> Result<(), NoMemory>
    ensures written { OnOk result (out.new.items ≡ out.old.items ++ bytes.now) }
    ensures front { Extends out.old.items out.new.items }
{
    out.extend_from_slice(bytes)?;
    Ok(())
}

/// Writes a text or a blob: its length, and its bytes.
pub fn put_counted(out: &mut Vec<u8>, bytes: &[u8]) -> Result<(), NoMemory>
    requires { length bytes.now < 2 ^ 32 }
    ensures written { OnOk result (out.new.items ≡ out.old.items ++ counted bytes.now) }
    ensures front { Extends out.old.items out.new.items }
{
    put_bytes(out, &(bytes.len() as u32).to_le_bytes())?;
    put_bytes(out, bytes)
}

/// Writes a name and its value.
fn put_pair(out: &mut Vec<u8>, name: &[u8], value: &[u8]) -> Result<(), NoMemory>
    requires { length (pair_text (name.now, value.now)) < 2 ^ 32 }
    ensures written { OnOk result (out.new.items ≡ out.old.items
        ++ pair_text (name.now, value.now)) }
    ensures front { Extends out.old.items out.new.items }
{
    put_counted(out, name)?;
    put_counted(out, value)
}

/// Writes how many annotations there are, and each of them.
pub fn put_texts(out: &mut Vec<u8>, texts: &Texts) -> Result<(), NoMemory>
    requires few { length texts.now < 2 ^ 32 }
    requires fits { length (flat_map pair_text texts.now) < 2 ^ 32 }
    ensures written { OnOk result (out.new.items ≡ out.old.items ++ pairs_text texts.now) }
    ensures front { Extends out.old.items out.new.items }
{
    put_bytes(out, &(texts.len() as u32).to_le_bytes())?;
    for (name, value) in texts {
        put_pair(out, name.as_bytes(), value.as_bytes())?;
    }
    Ok(())
}

/// Writes how many dumps there are, and each of them.
pub fn put_blobs(out: &mut Vec<u8>, blobs: &Blobs) -> Result<(), NoMemory>
    requires few { length blobs.now < 2 ^ 32 }
    requires fits { length (flat_map pair_text blobs.now) < 2 ^ 32 }
    ensures written { OnOk result (out.new.items ≡ out.old.items ++ pairs_text blobs.now) }
    ensures front { Extends out.old.items out.new.items }
{
    put_bytes(out, &(blobs.len() as u32).to_le_bytes())?;
    for (name, value) in blobs {
        put_pair(out, name.as_bytes(), value)?;
    }
    Ok(())
}

/// How many bytes the annotations take in a record.
pub fn len_of_texts(texts: &Texts) -> usize
    requires { length (flat_map pair_text texts.now) < 2 ^ 32 }
    ensures { result ≡ length (pairs_text texts.now) }
{
    let mut total = 4;
    for (name, value) in texts {
        total += 8 + name.len() + value.len();
    }
    total
}

/// How many bytes the dumps take in a record.
pub fn len_of_blobs(blobs: &Blobs) -> usize
    requires { length (flat_map pair_text blobs.now) < 2 ^ 32 }
    ensures { result ≡ length (pairs_text blobs.now) }
{
    let mut total = 4;
    for (name, value) in blobs {
        total += 8 + name.len() + value.len();
    }
    total
}
