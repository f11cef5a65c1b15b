//! The store: the log, the control block with its checkpoints, the pages and the transaction table,
//! over three devices.
//!
//! ```text
//! format --> running <-- ready -- recovering <-- open
//!               |                      |
//!               +---- write or sync fails ----> broken
//! ```
//!
//! Rules:
//! 1. A record is held by all parts or by none: room is reserved in each part first, and then no
//!    part can fail.
//! 2. The device has room for every front of the log from the acknowledged LSN on, with its
//!    reserve: what a takeover would append, and after it the decisions of transactions in doubt. So
//!    neither meets a full log, whatever a crash leaves.
//! 3. Each event makes one write or one sync of a device at most. A stop inside an event is a stop
//!    before or after it.
//! 4. After a failed write or sync the store is broken, and no event writes or syncs any more.
//! 5. A checkpoint goes to the region that no control block names that a crash could leave.
//!
//! Blocks and candidates end here. Above, a crash leaves one of the control states that were synced
//! or written since, and the front of the log that ends at its mark (`Leaves`). What holds over
//! sound devices alone has the premise that they were sound when the store was made (`WasWarm`).

ghost use Rattle.std.specs.Prelude.{◌≡◌, ◌<◌, ◌≤◌, ◌+◌, ◌⊎◌, false, IfOk, IfErr};
ghost use Rattle.als_store.specs.declared.fault.Fault.TheVariants as fault;
ghost use Rattle.als_store.specs.Formatting.{FormatsStore, IsHalfFormatted};
ghost use Rattle.als_store.specs.Stopped.{AreStopped, devices_of};
ghost use Rattle.als_store.specs.Stored.{pending_of};
ghost use Rattle.als_store.specs.Warm.{WasWarm};

// What is asked, and changes nothing.
mod asking;
// Checkpoints.
mod checkpoint;
// What a record commits.
mod committing;
// A crash.
pub(crate) mod crashing;
// A record is held, in all parts that it changes.
mod holding;
// The history of takeovers.
mod histories;
// Devices that were stopped are taken up again.
mod opening;
// Pages are lent for redo, written and synced.
mod paging;
// What is owed to the log, from memory.
mod tail_own;
// The takeover.
mod takeover;
// The log and the control block are written and synced.
mod writing;
// What a writer of transactions of its own asks.
mod writing_own;

use self::holding::{admit, make_room, reserve_after, route_change};
use crate::fault::Fault;
use crate::laying_out::{LaidOut, lay_out};
use crate::new_parts::NewParts;
use crate::origin::Origin;
use crate::unformatted::Unformatted;
use als_ckpt::Control;
use als_disk::BlockDisk;
use als_log::LocalLog;
use als_pool::{Pool, pool_ends_below, rows_make_a_checkpoint, stopped_pages_hold_images};
use als_reopen::Disks;
use als_tables::CommitCount;
use als_validator::Validator;
use std::alloc::Global;
use std::marker::Model;

/// The log and the control block on their devices, the pages, and the transaction table.
///
/// It is broken once a write or a sync has failed: then no event writes or syncs any more.
pub struct Store<D: BlockDisk> {
    pages: u32,
    log: LocalLog<D>,
    count: CommitCount,
    control: Control<D>,
    pool: Pool<D>,
    validator: Validator,
    broken: bool,
    // It was opened, and not every change of its log is redone yet.
    recovering: bool,
    origin: Origin<D>,
}

impl<D: BlockDisk> Model for Store<D> {
    ghost use Rattle.std.specs.Prelude.{◌+◌};
    ghost use Rattle.als_store.specs.Spare.{Holding};
    ghost use Rattle.als_store.specs.Parts.{IsStored, stored_of, spare_of};

    ghost Value = { Holding };

    ghost view = { λ s. record {
      stored = stored_of s.pages s.log s.control s.pool.pool s.broken s.origin s.recovering;
      spare = spare_of s.log s.validator s.pool.room;
    } };

    ghost invariant = { λ s. IsStored s.pages s.log s.count s.control s.pool.pool s.validator
        s.broken s.origin s.recovering };
}

// Written out: a derived drop is proved part by part wherever a store is dropped, this one only
// here.
impl<D: BlockDisk + Drop> Drop for Store<D> {
    fn drop(self) {
        let Store {
            pages: _,
            log,
            count: _,
            control,
            pool,
            validator,
            broken: _,
            recovering: _,
            origin,
        } = self;
        drop(log);
        drop(control);
        drop(pool);
        drop(validator);
        drop(origin);
    }
}

impl<D: BlockDisk> Store<D> {
    /// Formats the devices for a database of so many pages, of which at most `frames` can be in
    /// memory at once: clears and syncs the control block, then writes and syncs empty pages and
    /// the log's header, then writes and syncs the control block. It leaves an empty log,
    /// acknowledged up to 16. All memory is taken before a device is touched.
    ///
    /// Memory: the devices come back as they were. Device: one of them failed; they come back with
    /// the log and the pages as they were, or with a control block that is cleared or that of the
    /// new database, whatever a crash leaves.
    pub fn format(
        alloc: Global,
        disks: Disks<D>,
        pages: u32,
        frames: usize,
    ) -> Result<Store<D>, Unformatted<D>>
        requires some_pages { 1 ≤ pages }
        requires few_pages { pages ≤ 4096 }
        requires some_blocks { 1 ≤ D.block_count disks.log }
        requires few_blocks { D.block_count disks.log ≤ 4194304 }
        requires control { 321 ≤ D.block_count disks.control }
        requires page_blocks { pages ≤ D.block_count disks.pages }
        ensures ok { IfOk result (λ s. FormatsStore 1 pages frames (D.block_count disks.pages)
            (D.failures disks.pages) (D.attempts disks.pages) (D.block_count disks.log)
            (D.failures disks.log + D.failures disks.control + D.failures disks.pages) s.stored) }
        ensures fault { IfErr result (λ u. (u.fault ≡ fault.Memory) ⊎ (u.fault ≡ fault.Device)) }
        ensures memory { IfErr result (λ u. u.fault ≡ fault.Memory → u.disks ≡ disks) }
        ensures warm { IfOk result (λ s. WasWarm s.stored) }
        ensures device { IfErr result (λ u. u.fault ≡ fault.Device
            → D.failures disks.log + D.failures disks.control + D.failures disks.pages
            < D.failures u.disks.log + D.failures u.disks.control + D.failures u.disks.pages) }
        ensures left { IfErr result (λ u. u.fault ≡ fault.Device
            → IsHalfFormatted pages (D.slot disks.log) (D.slot u.disks.log) (D.slot disks.pages)
            (D.slot u.disks.pages) (D.slot u.disks.control)) }
        ensures counts { IfErr result (λ u. (D.block_count u.disks.log ≡ D.block_count disks.log)
            × (D.block_count u.disks.control ≡ D.block_count disks.control)
            × (D.block_count u.disks.pages ≡ D.block_count disks.pages)) }
    {
        Store::format_numbered(alloc, disks, pages, frames, 1)
    }

    /// The same, with this number for the first lease.
    pub fn format_numbered(
        alloc: Global,
        disks: Disks<D>,
        pages: u32,
        frames: usize,
        first: u64,
    ) -> Result<Store<D>, Unformatted<D>>
        requires some_pages { 1 ≤ pages }
        requires few_pages { pages ≤ 4096 }
        requires some_blocks { 1 ≤ D.block_count disks.log }
        requires few_blocks { D.block_count disks.log ≤ 4194304 }
        requires control { 321 ≤ D.block_count disks.control }
        requires page_blocks { pages ≤ D.block_count disks.pages }
        ensures ok { IfOk result (λ s. FormatsStore first pages frames (D.block_count disks.pages)
            (D.failures disks.pages) (D.attempts disks.pages) (D.block_count disks.log)
            (D.failures disks.log + D.failures disks.control + D.failures disks.pages) s.stored) }
        ensures fault { IfErr result (λ u. (u.fault ≡ fault.Memory) ⊎ (u.fault ≡ fault.Device)) }
        ensures memory { IfErr result (λ u. u.fault ≡ fault.Memory → u.disks ≡ disks) }
        ensures warm { IfOk result (λ s. WasWarm s.stored) }
        ensures device { IfErr result (λ u. u.fault ≡ fault.Device
            → D.failures disks.log + D.failures disks.control + D.failures disks.pages
            < D.failures u.disks.log + D.failures u.disks.control + D.failures u.disks.pages) }
        ensures left { IfErr result (λ u. u.fault ≡ fault.Device
            → IsHalfFormatted pages (D.slot disks.log) (D.slot u.disks.log) (D.slot disks.pages)
            (D.slot u.disks.pages) (D.slot u.disks.control)) }
        ensures counts { IfErr result (λ u. (D.block_count u.disks.log ≡ D.block_count disks.log)
            × (D.block_count u.disks.control ≡ D.block_count disks.control)
            × (D.block_count u.disks.pages ≡ D.block_count disks.pages)) }
    {
        let NewParts {
            log,
            pool,
            validator,
        } = match NewParts::numbered(alloc, pages, first) {
            Ok(parts) => parts,
            Err(fault) => return Err(Unformatted { disks, fault }),
        };
        match lay_out(disks, pages, frames, log, pool) {
            Ok(laid) => {
                pool_ends_below();
                let LaidOut { log, control, pool } = laid;
                let origin = Origin::of(&log, &control, &pool);
                Ok(Store {
                    pages,
                    log,
                    count: CommitCount::new(),
                    control,
                    pool,
                    validator,
                    broken: false,
                    recovering: false,
                    origin,
                })
            }
            Err(disks) => {
                let fault = Fault::Device;
                Err(Unformatted { disks, fault })
            }
        }
    }

    /// The devices. Whatever a crash leaves of them has all acknowledged bytes. If the devices were
    /// sound when the store was made, it has of each page an image from below these bytes for which
    /// its row is sound, one of the control states that were synced or written since, and the front
    /// of the log that ends at its mark. Their attempts together are the store's.
    pub fn into_disks(self) -> Disks<D>
        ensures stopped { AreStopped self.stored (devices_of D.slot D.block_count result) }
        ensures some_blocks { 1 ≤ self.stored.blocks }
        ensures few_blocks { self.stored.blocks ≤ 4194304 }
        ensures failures { D.failures result.log + D.failures result.control
            + D.failures result.pages ≡ self.stored.failures }
        ensures attempts { D.attempts result.log + D.attempts result.control
            + D.attempts result.pages ≡ self.stored.attempts }
    {
        let Store {
            pages: _,
            log,
            count: _,
            control,
            pool,
            validator,
            broken: _,
            recovering: _,
            origin,
        } = self;
        drop(validator);
        drop(origin);
        stopped_pages_hold_images();
        rows_make_a_checkpoint();
        Disks {
            log: log.into_disk(),
            control: control.into_disk(),
            pages: pool.into_disk(),
        }
    }

    /// Notes that nothing waits for redo any more of what a restart found: no device is called.
    pub fn ready(&mut self)
        requires { pending_of self.old.stored ≡ 0 }
        ensures stored { self.new.stored ≡ record self.old.stored { recovering = false } }
        ensures spare { self.new.spare ≡ self.old.spare }
    {
        self.recovering = false;
    }
}
