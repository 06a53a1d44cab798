//! A disk with a second handle of its file, whose lock lasts as long as the disk.

ghost use Rattle.std.specs.Prelude.{◌≡◌};
ghost use Rattle.pbfrow_files.specs.Guarded.{disk_of};

use sqlite_disk::{Disk, Tally};
use std::{fs, io};

/// A disk, and maybe a handle whose lock keeps other programs from the file until this is dropped. Each call goes to the
/// disk, and nothing is asked of the handle.
#[derive(Drop)]
pub struct Guarded<D: Disk> {
    disk: D,
    guard: Option<fs::File>,
}

impl<D: Disk> Guarded<D> {
    /// A disk whose file is locked by this handle, if there is one.
    pub(crate) fn new(disk: D, guard: Option<fs::File>) -> Guarded<D>
        ensures { disk_of result ≡ disk }
    {
        Guarded { disk, guard }
    }
}

impl<D: Disk> Disk for Guarded<D> {
    ghost seen = { λ g. D.Disk.seen g.disk };

    ghost may_leave = { λ g. D.Disk.may_leave g.disk };

    ghost is_usable = { λ g. D.Disk.is_usable g.disk };

    ghost faults = { λ g. D.Disk.faults g.disk };

    ghost tally_of = { λ g. D.Disk.tally_of g.disk };

    ghost is_clean = { λ g. D.Disk.is_clean g.disk };

    ghost key_of = { λ g. D.Disk.key_of g.disk };

    ghost is_fair = { λ g. D.Disk.is_fair g.disk };

    ghost is_frozen = { λ g. D.Disk.is_frozen g.disk };

    ghost is_rotten = { λ g. D.Disk.is_rotten g.disk };

    ghost is_mixing = { λ g. D.Disk.is_mixing g.disk };

    ghost seen_may_stay = { λ g. D.Disk.seen_may_stay g.disk };

    ghost fair_if_clean = { λ g. D.Disk.fair_if_clean g.disk };

    fn mixes(&self) -> bool {
        self.disk.mixes()
    }

    fn key(&self) -> u64 {
        self.disk.key()
    }

    fn tally(&self) -> Tally {
        self.disk.tally()
    }

    fn may_be_used(&self) -> bool {
        self.disk.may_be_used()
    }

    fn len(&mut self) -> io::Result<usize> {
        self.disk.len()
    }

    fn read_at(&mut self, at: usize, buf: &mut [u8]) -> io::Result<()> {
        self.disk.read_at(at, buf)
    }

    fn read_checked(&mut self, key: u64, want: u64, at: usize, buf: &mut [u8]) -> io::Result<()> {
        self.disk.read_checked(key, want, at, buf)
    }

    fn write_at(&mut self, at: usize, bytes: &[u8]) -> io::Result<()> {
        self.disk.write_at(at, bytes)
    }

    fn set_len(&mut self, len: usize) -> io::Result<()> {
        self.disk.set_len(len)
    }

    fn sync(&mut self) -> io::Result<()> {
        self.disk.sync()
    }
}
