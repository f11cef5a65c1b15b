//! The engine: a standby as one machine of events and queries.
//!
//! ```text
//! format --> Following --a bad record--> Refusing --resync--> Following
//!            Following, Refusing --seal--> Sealed --finish--> Primary
//!            Primary --resolve, undo_one--> Primary
//! open ----> Recovering --ready--> Following, Sealed or Primary, by the phase
//! any state --a write or a sync fails--> Stopped
//! ```
//!
//! Rules:
//! 1. Each event is one step of the small machine (`specs/Machine`, `specs/Runs`). It is refused by
//!    the first of its causes that applies, in the order of one table (`specs/Refusals`). Such a
//!    refusal changes nothing; a feed keeps the whole records in front of the refused one.
//! 2. Feed holds each whole record in turn; the rest of a piece waits as the partial record.
//! 3. Acknowledged is the mark in the control block as last synced. No event lowers it.
//! 4. Each event makes one write or one sync of a device at most.
//! 5. Queries change nothing but the count of failed reads, and go on in Stopped.
//!
//! 6. Pages are redone outside the engine: `lend` hands out a page with the first changes that wait
//!    for it, the lease redoes them, and `give` takes the page in. One lease of a page is out at
//!    most; its changes wait until then, so nothing is drained while one is out.
//! 7. Each event that answers Ok is counted in the tally, and the bytes that a feed takes. It stands
//!    in clauses alone.
//! 8. A takeover leaves transactions in doubt as they are. In Primary `resolve` commits or rolls back
//!    one, as its coordinator decided, and `undo_one` appends what that leaves to append.
//!
//! The engine is the store, the receiver of the partial record and the readers' view. Its contract
//! speaks of one value, `Machine`, so a caller needs to know none of the three.

ghost use Rattle.std.specs.Prelude.{◌≡◌, ◌<◌, ◌≤◌, ◌+◌, length, IfOk, IfErr};
ghost use Rattle.als_engine.specs.Config.{IsWorld};
ghost use Rattle.als_engine.specs.Formatting.{FormatsWorld, RefusesFormat};
ghost use Rattle.als_engine.specs.Readers.{AreReaders};
ghost use Rattle.als_engine.specs.Tally.{no_events};
ghost use Rattle.als_store.specs.Formatting.{IsHalfFormatted};
ghost use Rattle.als_store.specs.Stopped.{AreStopped, devices_of};
ghost use Rattle.als_store.specs.Warm.{WasWarm};

// What acknowledges the log.
mod acknowledging;
// The history of takeovers.
mod adopting;
// What is asked, and changes nothing.
mod asking;
// The steps of a checkpoint.
mod checkpointing;
// What is counted.
mod counting;
// The primary's log comes in.
mod feeding;
// Pages are lent, and leases are taken in.
mod leasing;
// Pages are written and synced.
mod paging;
// The end of a recovery.
mod readiness;
// What readers see.
mod reading;
// Crash and restart.
mod restart;
// One step of the small machine.
mod stepping;
// The takeover.
mod taking_over;
// Transactions in doubt are decided after it.
mod resolving;
// What a writer of transactions of its own asks.
mod writing_own;

use crate::config::Config;
use crate::fault::Fault;
use crate::refused::Refused;
use crate::tally::Tally;
use als_disk::BlockDisk;
use als_receiver::Receiver;
use als_record::FIRST_LSN;
use als_store::{Disks, Store};
use als_view::{Reader, View, a_view_goes_on};
use std::alloc::Global;
use std::marker::Model;
use std::sync::Wait;

/// A standby: it takes the primary's log in pieces cut anywhere, stores it on its devices, and
/// keeps warm pages by redo.
///
/// Once a write or a sync has failed it has stopped: each event is answered by Stopped and changes
/// nothing, and the queries go on.
pub struct Engine<D: BlockDisk> {
    alloc: Global,
    store: Store<D>,
    receiver: Receiver,
    limit: usize,
    refused: Option<Fault>,
    // What readers see.
    shown: View,
    // How often each event answered Ok.
    told: Tally,
}

impl<D: BlockDisk> Model for Engine<D> {
    ghost use Rattle.als_engine.specs.Serving.{Serving};
    ghost use Rattle.std.specs.Prelude.{is_some};
    ghost use Rattle.als_view.specs.Showing.{published_of};
    ghost use Rattle.als_engine.specs.Readers.{count_in, IsServing};

    ghost Value = { Serving };

    ghost view = { λ e. record {
      machine = record {
        held = e.store.stored;
        limit = e.limit;
        partial = e.receiver.kept;
        refused = e.refused;
        listed = is_some (published_of e.shown);
        published = count_in (published_of e.shown);
      };
      spare = e.store.spare;
      room = e.receiver.room;
      tally = e.told;
      book = e.shown.book;
    } };

    ghost invariant = { λ e. IsServing e.store.stored e.receiver e.refused e.shown };
}

// Written out: a derived drop would be proved part by part wherever an engine is dropped, this
// one only here.
impl<D: BlockDisk + Drop> Drop for Engine<D> {
    fn drop(self) {
        let Engine {
            alloc: _,
            store,
            receiver,
            limit: _,
            refused: _,
            shown,
            told,
        } = self;
        drop(store);
        drop(receiver);
        drop(shown);
        drop(told);
    }
}

impl<D: BlockDisk> Engine<D> {
    /// A standby with an empty log and empty pages, over devices that it formats. On a refusal the
    /// devices come back.
    ///
    /// BadConfig: a number of the configuration is out of its range, or a device has too few
    /// blocks, or the log's too many; the devices are as they were. Memory: an allocation failed;
    /// the devices are as they were. Device: a device failed; the log and the pages are as they
    /// were, or a crash leaves a control block that is cleared or that of the new database.
    pub fn format<R: Wait>(
        alloc: Global,
        rt: &R,
        disks: Disks<D>,
        config: Config,
    ) -> Result<(Engine<D>, Vec<Reader>), Refused<D>>
        ensures fits { IfOk result (λ t. IsWorld config (D.block_count disks.log)
            (D.block_count disks.control) (D.block_count disks.pages)) }
        ensures ok { IfOk result (λ t. FormatsWorld config (D.block_count disks.log)
            (D.block_count disks.pages) (D.failures disks.pages) (D.attempts disks.pages)
            (D.failures disks.log + D.failures disks.control + D.failures disks.pages)
            t.0.machine) }
        // All that is promised of the pages, of the control states and of the checkpoints holds of
        // a new engine.
        ensures warm { IfOk result (λ t. WasWarm t.0.machine.held) }
        ensures tally { IfOk result (λ t. t.0.tally ≡ no_events) }
        // Its readers, as many as the configuration says.
        ensures readers { IfOk result (λ t. AreReaders t.0.book config.pages t.1.items
            × (length t.1.items ≡ config.readers)) }
        ensures config { IfErr result (λ r. r.fault ≡ Fault.BadConfig
            → IsWorld config (D.block_count disks.log) (D.block_count disks.control)
            (D.block_count disks.pages) → ⊥) }
        ensures fault { IfErr result (λ r. RefusesFormat config (D.block_count disks.log)
            (D.block_count disks.control) (D.block_count disks.pages) r.fault) }
        ensures same { IfErr result (λ r. (r.fault ≡ Fault.Device → ⊥) → r.disks ≡ disks) }
        ensures device { IfErr result (λ r. r.fault ≡ Fault.Device
            → D.failures disks.log + D.failures disks.control + D.failures disks.pages
            < D.failures r.disks.log + D.failures r.disks.control + D.failures r.disks.pages) }
        ensures left { IfErr result (λ r. r.fault ≡ Fault.Device
            → IsHalfFormatted config.pages (D.slot disks.log) (D.slot r.disks.log)
            (D.slot disks.pages) (D.slot r.disks.pages) (D.slot r.disks.control)) }
        ensures counts { IfErr result (λ r. (D.block_count r.disks.log ≡ D.block_count disks.log)
            × (D.block_count r.disks.control ≡ D.block_count disks.control)
            × (D.block_count r.disks.pages ≡ D.block_count disks.pages)) }
    {
        if !config.fits(&disks) {
            return Err(Refused {
                disks,
                fault: Fault::BadConfig,
            });
        }
        let pages = config.pages as u32;
        let Ok((shown, readers)) = View::new(alloc, rt, pages, config.readers as usize, true) else {
            return Err(Refused {
                disks,
                fault: Fault::Memory,
            });
        };
        match Store::format(alloc, disks, pages, config.frames as usize) {
            Ok(store) => {
                a_view_goes_on();
                let engine = Engine {
                    alloc,
                    store,
                    receiver: Receiver::new(alloc, FIRST_LSN, pages),
                    limit: config.pending as usize,
                    refused: None,
                    shown,
                    told: Tally::none(),
                };
                Ok((engine, readers))
            }
            Err(unformatted) => {
                drop(readers);
                shown.close(rt);
                Err(Refused {
                    disks: unformatted.disks,
                    fault: Fault::from(unformatted.fault),
                })
            }
        }
    }

    /// The devices. Whatever a crash leaves of them, the control block has a mark from the
    /// acknowledged LSN to the synced end, and the log device has the held log's text below that
    /// mark. Where the devices were sound when the engine was made, it has of each page an image
    /// for which its row is sound, one of the control states that were synced or written since with
    /// the checkpoint that it publishes, and the front of the log that ends at its mark. Their
    /// failures and their attempts together are the machine's. It waits for the readers that are in a
    /// copy of the view.
    pub fn into_disks<R: Wait>(self, rt: &R) -> Disks<D>
        ensures stopped { AreStopped self.machine.held (devices_of D.slot D.block_count result) }
        ensures some_blocks { 1 ≤ self.machine.held.blocks }
        ensures few_blocks { self.machine.held.blocks ≤ 4194304 }
        ensures failures { D.failures result.log + D.failures result.control
            + D.failures result.pages ≡ self.machine.held.failures }
        ensures attempts { D.attempts result.log + D.attempts result.control
            + D.attempts result.pages ≡ self.machine.held.attempts }
    {
        let Engine {
            alloc: _,
            store,
            receiver,
            limit: _,
            refused: _,
            shown,
            told,
        } = self;
        drop(receiver);
        shown.close(rt);
        drop(told);
        store.into_disks()
    }
}
