//! Parts of a file.
ghost use Rattle.std.specs.Prelude.{◌≡◌, [], ◌∷◌};
ghost use Rattle.soc_dump.specs.Part.{part};
ghost use Rattle.soc_dump.specs.Checks.{IsRead, inside};

use crate::error::DumpError;

/// The bytes of the file that a place and a size name. No bytes are never out of the file.
pub fn part_of<'a>(file: &'a [u8], place: u64, size: u64) -> Result<&'a [u8], DumpError>
    ensures { IsRead result (inside file.now place size ∷ [])
        (λ bytes. bytes.now ≡ part file.now place size) }
{
    if size == 0 {
        return Ok(&[]);
    }
    let length = file.len() as u64;
    if place > length || size > length - place {
        return Err(DumpError::OutOfFile { place });
    }
    let rest = &file[place as usize..];
    Ok(&rest[..size as usize])
}
