//! A disk, whose writes are safe only after a sync.
ghost use Rattle.std.specs.Prelude.{◌≡◌, ◌≤◌, length, IfSome, IfOk, OnOk, OnErr};
ghost use Rattle.std.specs.Option.{option_map};
ghost use Rattle.soc_edge.specs.Calls.{one_more};
ghost use Rattle.soc_edge.specs.Disk.{written, Tears, ReadsAt, WhereTold, Only, DiskTold, IsDisk, Looks, MayTear, DiskFailed};

use crate::Failed;

/// A disk that may stop at any moment. An image is what a stop leaves of it.
///
/// Between two syncs each written range, and everything past the end that the last sync left, may hold any bytes in an
/// image; bytes outside stay. After a sync that succeeds the one image is what a read gives.
pub trait Disk {
    /// What the disk tells of itself.
    ghost state: { Self → DiskTold };

    /// How many bytes the disk has.
    fn len(&mut self) -> Result<u64, Failed>
        ensures count { IfOk result (λ n. IfSome (state self.old).content
            (λ bytes. n ≡ length bytes)) }
        ensures looks { Looks (state self.old) (state self.new) }
        ensures counted { (state self.new).calls ≡ one_more (state self.old).calls }
        ensures cause { OnErr result (DiskFailed (state self.old) (state self.new)) };

    /// Reads from a place on to the front of `into`, and answers how many bytes it gave: fewer than there is room for
    /// only at the end of the disk. What stands behind them in `into` may change too.
    fn read_at(&mut self, place: u64, into: &mut [u8]) -> Result<usize, Failed>
        ensures count { IfOk result (λ n. n ≤ length into.new) }
        ensures bytes { IfOk result (λ n. IfSome (state self.old).content
            (λ bytes. ReadsAt bytes place n into.new)) }
        ensures looks { Looks (state self.old) (state self.new) }
        ensures counted { (state self.new).calls ≡ one_more (state self.old).calls }
        ensures cause { OnErr result (DiskFailed (state self.old) (state self.new)) };

    /// Writes over what is there, and past the end. After `Failed` the range may read as any bytes.
    fn write_at(&mut self, place: u64, bytes: &[u8]) -> Result<(), Failed>
        ensures written { OnOk result ((state self.new).content ≡ option_map
            (λ old. written old place bytes.now) (state self.old).content) }
        ensures torn { OnErr result (WhereTold (Tears place (length bytes.now))
            (state self.old).content (state self.new).content) }
        ensures tears { MayTear place (length bytes.now) (state self.old) (state self.new) }
        ensures counted { (state self.new).calls ≡ one_more (state self.old).calls }
        ensures cause { OnErr result (DiskFailed (state self.old) (state self.new)) };

    /// Makes what was written safe from a stop. After `Failed` nothing is settled.
    fn sync(&mut self) -> Result<(), Failed>
        ensures durable { OnOk result (IfSome (state self.old).content
            (λ bytes. Only bytes (state self.new).images)) }
        ensures looks { Looks (state self.old) (state self.new) }
        ensures counted { (state self.new).calls ≡ one_more (state self.old).calls }
        ensures cause { OnErr result (DiskFailed (state self.old) (state self.new)) };

    /// As it reads it is one of its images, and its moments are in order.
    ghost sound: { (disk : Self) → IsDisk (state disk) };
}

/// A disk that is lent is the same disk.
impl<D: Disk> Disk for &mut D {
    ghost state = { λ d. D.state d.now };

    ghost sound = { λ d. D.sound d.now };

    fn len(&mut self) -> Result<u64, Failed> {
        (**self).len()
    }

    fn read_at(&mut self, place: u64, into: &mut [u8]) -> Result<usize, Failed> {
        (**self).read_at(place, into)
    }

    fn write_at(&mut self, place: u64, bytes: &[u8]) -> Result<(), Failed> {
        (**self).write_at(place, bytes)
    }

    fn sync(&mut self) -> Result<(), Failed> {
        (**self).sync()
    }
}
