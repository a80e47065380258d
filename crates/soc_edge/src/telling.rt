//! Kinds of disks that always tell their content, or never.
ghost use Rattle.std.specs.Prelude.{◌≡◌, Bool, is_some};

use crate::{Counted, Device, Disk, MemDisk, ReadAhead};

/// A kind of disks that always tell their content, or never.
pub trait Telling: Disk {
    // Whether disks of this kind tell their content.
    ghost tells: { Bool };

    ghost steady: { (disk : Self) → is_some (Self.state disk).content ≡ tells };
}

impl Telling for MemDisk {
    ghost use Rattle.std.specs.Prelude.{true};
    ghost use Rattle.std.proofs.Common.{refl};

    ghost tells = { true };

    ghost steady = { λ _. refl };
}

/// A device tells nothing.
impl<D: Device> Telling for Counted<D> {
    ghost use Rattle.std.specs.Prelude.{false};
    ghost use Rattle.std.proofs.Common.{refl};

    ghost tells = { false };

    ghost steady = { λ _. refl };
}

/// A disk that is lent tells what it told.
impl<D: Telling> Telling for &mut D {
    ghost tells = { D.tells };

    ghost steady = { λ disk. D.steady disk.now };
}

/// A disk that reads ahead tells what the disk below tells.
impl<D: Telling> Telling for ReadAhead<D> {
    ghost tells = { D.tells };

    ghost steady = { λ ahead. D.steady ahead.disk };
}
