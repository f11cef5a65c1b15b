//! A device over a file of the system.
//!
//! Reads come from a mirror in memory, so what a read gives is proved and not taken from the file:
//!
//! 1. `open` reads the file once, piece by piece, and writes each piece back that is not all zeros.
//!    After a failed sync a file system may show bytes that are not on the disk, and take them for
//!    synced; the sync that follows brings to the disk what was read.
//!    `open_below` is for a file that is written in rising order, and of which a mark is kept
//!    elsewhere: a mark was written only once each byte below it was synced. It reads the blocks below
//!    the mark. The last of them alone may have been written since, and it is written back. What lies
//!    above was never promised: it is neither read nor written, and taken as zeros.
//! 2. A write goes to the mirror. Blocks that are written in a row wait, and go to the file by one
//!    write where the row or its piece of 64 KiB ends, or at the sync. A sync hands over what waits,
//!    syncs the file, and then settles the mirror. So a write that the file refuses may be answered
//!    by a later call.
//! 3. Once the file has failed, each call fails, and the first failure is kept. A sync fails too
//!    where the file lost its last name or was cut, since nobody would find there what it holds. So
//!    does one after somebody has noted that the path names another file (`FirstError`).
//! 4. A device that forgets old blocks (`forget_old`) fails a read of one, and goes on.
//!
//! One premise is left, which no clause can say: the next opening reads, in each block that it reads,
//! one of the candidates of this run. Below the mark that it finds, `open_below` reads each block. The calls are generic, so that a test records them and their order.
ghost use Rattle.std.specs.Prelude.{◌≡◌, ◌<◌, ◌≤◌, ◌+◌, ◌*◌, ◌^◌, ℕ, IfOk};
ghost use Rattle.als_disk.specs.Count.{number};
ghost use Rattle.als_disk.specs.Mirror.{mirror_blocks, mirror_slot};
ghost use Rattle.als_disk.specs.Slot.{only, IsSettled, SameBlocks};
ghost use Rattle.als_disk.specs.Store.{zeros};

use crate::count::Count;
use crate::extent::Extent;
use crate::failure::Failure;
use crate::intact::Intact;
use crate::mirror::Mirror;
use crate::piece::PIECE_BLOCKS;
use crate::pieces::write_zeros;
use crate::reading::mirror_of;
use crate::run::Run;
use crate::{BlockDisk, DeviceError, FirstError};
use std::alloc::Global;
use std::fs::{File, OpenFile, OpenOptions, TryLockError};
use std::io;
use std::os::unix::fs::{FileExt, OpenOptionsExt};
use std::path::AsPath;
use std::rt::Files;

/// A device over a file, of its length / 512 blocks.
pub struct FileDisk<F = File> {
    file: F,
    intact: Intact,
    mirror: Mirror,
    /// What the mirror has and the file has not.
    run: Run,
    first_error: FirstError,
    broken: bool,
    failed: Count,
    attempted: Count,
    ghost fits: { mirror_blocks mirror * 512 < 2 ^ 64 },
}

// Written out: a derived drop is proved wherever a device is dropped, this one only here.
impl<F: Drop> Drop for FileDisk<F> {
    fn drop(self) {
        let FileDisk {
            file,
            intact: _,
            mirror,
            run: _,
            first_error,
            broken: _,
            failed: _,
            attempted: _,
        } = self;
        drop(file);
        drop(mirror);
        drop(first_error);
    }
}

impl FileDisk<File> {
    /// Locks the file for this program alone, until the device is dropped.
    pub fn try_lock(&self) -> Result<(), TryLockError> {
        self.file.try_lock()
    }
}

impl<F: OpenFile + FileExt + Drop> FileDisk<F> {
    /// Makes a file of so many blocks of zeros, which are written and synced. Only the file's owner
    /// may read or write it. The caller syncs its folder, which makes its name last.
    ///
    /// It fails where there is something of this name already, a link too, where the file does, or
    /// where there is no memory.
    pub fn create<R: Files<File = F> + AllocGlobal, P: AsPath>(
        rt: &R,
        path: P,
        blocks: u64,
        first_error: FirstError,
    ) -> io::Result<FileDisk<F>>
        ensures count { IfOk result (λ disk. ⟦<FileDisk<F> as BlockDisk>⟧.block_count disk ≡ blocks) }
        ensures zeros { IfOk result (λ disk. (k : ℕ)
            → ⟦<FileDisk<F> as BlockDisk>⟧.slot disk k ≡ only zeros) }
    {
        if blocks.checked_mul(512).is_none() {
            return Err(io::ErrorKind::InvalidInput.into());
        }
        let file = OpenOptions::new()
            .read(true)
            .write(true)
            .create_new(true)
            .mode(0o600)
            .open(rt, path.path_text())?;
        write_zeros(rt.alloc(), &file, blocks)?;
        file.sync_all()?;
        let mirror = Mirror::zeros(rt.alloc(), blocks)?;
        let found = file.metadata()?;
        let intact = Intact::of(&found, blocks);
        Ok(FileDisk::with(file, intact, mirror, first_error))
    }

    /// Opens a file, whatever it holds, and makes what it read last: each piece that is not all
    /// zeros is written back, and the file is synced. It fails where the file does, or where there
    /// is no memory.
    pub fn open<R: Files<File = F> + AllocGlobal, P: AsPath>(
        rt: &R,
        path: P,
        first_error: FirstError,
    ) -> io::Result<FileDisk<F>>
        ensures settled { IfOk result (λ disk. (k : ℕ)
            → IsSettled (⟦<FileDisk<F> as BlockDisk>⟧.slot disk k)) }
    {
        let file = OpenOptions::new()
            .read(true)
            .write(true)
            .open(rt, path.path_text())?;
        FileDisk::over(rt.alloc(), file, first_error)
    }

    /// Opens a file of which the first bytes alone are known to hold something. The blocks that have
    /// one of them are read, and the last of these is written back; each block above is taken as
    /// zeros, whatever the file has there. It fails where the file does, or where there is no memory.
    ///
    /// Each block below the last one was synced before anybody could know of it, and was not written
    /// since. So it lasts as it is read.
    pub fn open_below<R: Files<File = F> + AllocGlobal, P: AsPath>(
        rt: &R,
        path: P,
        first_error: FirstError,
        bytes: u64,
    ) -> io::Result<FileDisk<F>>
        ensures settled { IfOk result (λ disk. (k : ℕ)
            → IsSettled (⟦<FileDisk<F> as BlockDisk>⟧.slot disk k)) }
        ensures above { IfOk result (λ disk. (k : ℕ) → bytes ≤ k * 512
            → ⟦<FileDisk<F> as BlockDisk>⟧.slot disk k ≡ only zeros) }
    {
        let file = OpenOptions::new()
            .read(true)
            .write(true)
            .open(rt, path.path_text())?;
        FileDisk::over_below(rt.alloc(), file, first_error, bytes)
    }

    /// A device over a file that is open, as `open` makes it.
    pub fn over(alloc: Global, file: F, first_error: FirstError) -> io::Result<FileDisk<F>>
        ensures settled { IfOk result (λ disk. (k : ℕ)
            → IsSettled (⟦<FileDisk<F> as BlockDisk>⟧.slot disk k)) }
    {
        let found = file.metadata()?;
        let blocks = found.len() / 512;
        let intact = Intact::of(&found, blocks);
        let mirror = mirror_of(alloc, &file, blocks, Extent::whole(blocks))?;
        // What is read has to be on the disk: an earlier run's writes may still be on their way.
        file.sync_all()?;
        Ok(FileDisk::with(file, intact, mirror, first_error))
    }

    /// A device over a file that is open, as `open_below` makes it.
    pub fn over_below(
        alloc: Global,
        file: F,
        first_error: FirstError,
        bytes: u64,
    ) -> io::Result<FileDisk<F>>
        ensures settled { IfOk result (λ disk. (k : ℕ)
            → IsSettled (⟦<FileDisk<F> as BlockDisk>⟧.slot disk k)) }
        ensures above { IfOk result (λ disk. (k : ℕ) → bytes ≤ k * 512
            → ⟦<FileDisk<F> as BlockDisk>⟧.slot disk k ≡ only zeros) }
    {
        let found = file.metadata()?;
        let blocks = found.len() / 512;
        let intact = Intact::of(&found, blocks);
        let mirror = mirror_of(alloc, &file, blocks, Extent::below(blocks, bytes))?;
        // The last block has to be on the disk: an earlier run may have written it again.
        file.sync_all()?;
        Ok(FileDisk::with(file, intact, mirror, first_error))
    }

    /// A device of which no call has failed.
    fn with(file: F, intact: Intact, mirror: Mirror, first_error: FirstError) -> FileDisk<F>
        requires { mirror_blocks mirror * 512 < 2 ^ 64 }
        ensures mirror { result.mirror ≡ mirror }
    {
        FileDisk {
            file,
            intact,
            mirror,
            run: Run::NONE,
            first_error,
            broken: false,
            failed: Count::Zero,
            attempted: Count::Zero,
        }
    }

    /// From now on each sync forgets blocks that lie far below the highest one that was written, and
    /// gives their memory back: the piece of 64 KiB of that block stays, and so many in front of it.
    /// A read of a block that is forgotten fails, and nothing else does.
    ///
    /// For a device that is written in rising order and not read again, as a log that is followed.
    pub fn forget_old(&mut self, pieces: u64)
        ensures slots { SameBlocks (⟦<FileDisk<F> as BlockDisk>⟧.slot self.old)
            (⟦<FileDisk<F> as BlockDisk>⟧.slot self.new) }
        ensures count { ⟦<FileDisk<F> as BlockDisk>⟧.block_count self.new
            ≡ ⟦<FileDisk<F> as BlockDisk>⟧.block_count self.old }
        ensures failures { ⟦<FileDisk<F> as BlockDisk>⟧.failures self.new
            ≡ ⟦<FileDisk<F> as BlockDisk>⟧.failures self.old }
        ensures attempts { ⟦<FileDisk<F> as BlockDisk>⟧.attempts self.new
            ≡ ⟦<FileDisk<F> as BlockDisk>⟧.attempts self.old }
    {
        self.mirror.keep_newest(pieces);
    }

    /// How many pieces of 64 KiB it keeps in memory.
    pub fn kept_pieces(&self) -> usize {
        self.mirror.kept_pieces()
    }

    /// Hands the blocks that wait to the file, by one write.
    fn hand_over(&mut self) -> io::Result<()>
        ensures mirror { self.new.mirror ≡ self.old.mirror }
        ensures failed { self.new.failed ≡ self.old.failed }
        ensures attempted { self.new.attempted ≡ self.old.attempted }
    {
        let Run { from, to } = self.run;
        if from < to {
            let Some(bytes) = self.mirror.bytes(from, to - from) else {
                return Err(io::ErrorKind::InvalidInput.into());
            };
            self.file.write_all_at(bytes, from.saturating_mul(512))?;
            self.run = Run::NONE;
        }
        Ok(())
    }

    /// Hands the blocks that wait to the file, unless this one goes on with them in their piece.
    fn end_run(&mut self, i: u64) -> io::Result<()>
        ensures mirror { self.new.mirror ≡ self.old.mirror }
        ensures failed { self.new.failed ≡ self.old.failed }
        ensures attempted { self.new.attempted ≡ self.old.attempted }
    {
        if i != self.run.to || i % PIECE_BLOCKS == 0 {
            self.hand_over()?;
        }
        Ok(())
    }

    /// Lets a block that the mirror has wait for the file. One that the mirror does not keep goes to
    /// the file at once.
    fn take(&mut self, i: u64, block: &[u8; 512]) -> io::Result<()>
        ensures mirror { self.new.mirror ≡ self.old.mirror }
        ensures failed { self.new.failed ≡ self.old.failed }
        ensures attempted { self.new.attempted ≡ self.old.attempted }
    {
        if !self.mirror.keeps(i) {
            return self.file.write_all_at(block, i.saturating_mul(512));
        }
        if self.run.from < self.run.to {
            self.run.to = i.saturating_add(1);
        } else {
            self.run = Run {
                from: i,
                to: i.saturating_add(1),
            };
        }
        Ok(())
    }

    /// Makes what the file was given last, and sees that it is still the file that was opened, and
    /// that nobody has noted otherwise.
    fn make_last(&self) -> Result<(), Failure> {
        if let Err(error) = self.file.sync_data() {
            return Err(Failure::of_call(&error));
        }
        self.intact.check(&self.file)?;
        match self.first_error.failure() {
            Some(failure) => Err(failure),
            None => Ok(()),
        }
    }

    /// Notes that the file has failed: each call fails from now on.
    fn break_off(&mut self, failure: Failure)
        ensures mirror { self.new.mirror ≡ self.old.mirror }
        ensures failed { number self.new.failed ≡ number self.old.failed + 1 }
        ensures attempted { self.new.attempted ≡ self.old.attempted }
    {
        self.first_error.note(failure);
        self.broken = true;
        self.failed.step();
    }
}

impl<F: OpenFile + FileExt + Drop> BlockDisk for FileDisk<F> {
    ghost use Rattle.als_disk.specs.Trail.{slot_in-gives_candidates};

    ghost block_count = { λ disk. mirror_blocks disk.mirror };

    ghost slot = { λ disk. mirror_slot disk.mirror };

    ghost failures = { λ disk. number disk.failed };

    ghost attempts = { λ disk. number disk.attempted };

    ghost gives_candidates = { λ disk. slot_in-gives_candidates disk.mirror.trail.value };

    ghost holds_blocks = { λ disk. disk.mirror.contents };

    fn blocks(&self) -> u64 {
        self.mirror.blocks()
    }

    fn read(&mut self, i: u64, into: &mut [u8; 512]) -> Result<(), DeviceError> {
        if self.broken {
            self.failed.step();
            return Err(DeviceError);
        }
        match self.mirror.read(i) {
            Ok(block) => {
                *into = block;
                Ok(())
            }
            Err(DeviceError) => {
                self.failed.step();
                Err(DeviceError)
            }
        }
    }

    fn write(&mut self, i: u64, block: &[u8; 512]) -> Result<(), DeviceError> {
        self.attempted.step();
        if self.broken {
            self.failed.step();
            return Err(DeviceError);
        }
        if let Err(error) = self.end_run(i) {
            self.break_off(Failure::of_call(&error));
            return Err(DeviceError);
        }
        if self.mirror.write(i, block).is_err() {
            self.failed.step();
            return Err(DeviceError);
        }
        match self.take(i, block) {
            Ok(()) => Ok(()),
            Err(error) => {
                self.break_off(Failure::of_call(&error));
                Err(DeviceError)
            }
        }
    }

    fn sync(&mut self) -> Result<(), DeviceError> {
        self.attempted.step();
        if self.broken {
            self.failed.step();
            return Err(DeviceError);
        }
        if let Err(error) = self.hand_over() {
            self.break_off(Failure::of_call(&error));
            return Err(DeviceError);
        }
        match self.make_last() {
            Ok(()) => {
                self.mirror.settle();
                Ok(())
            }
            Err(cause) => {
                self.break_off(cause);
                Err(DeviceError)
            }
        }
    }
}
