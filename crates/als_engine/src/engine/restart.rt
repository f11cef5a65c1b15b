ghost use Rattle.std.specs.Prelude.{◌≡◌, ⊤, ◌≤◌, ◌+◌, ◌⊎◌, false, length, IfOk, IfErr};
ghost use Rattle.als_engine.specs.declared.config.Config.{Config as AnyConfig};
ghost use Rattle.als_engine.specs.declared.fault.Fault.TheVariants as fault;
ghost use Rattle.als_engine.specs.Config.{IsWorld};
ghost use Rattle.als_reopen.specs.Node.{Node, HoldsLog, IsNode};
ghost use Rattle.als_reopen.specs.Outcomes.{AreLeft, AreSettled, IsOnceAtMost, Synced};
ghost use Rattle.als_store.specs.Devices.{AreKept};
ghost use Rattle.als_store.specs.Stopped.{CrashesTo, NamesState, devices_of};
ghost use Rattle.als_engine.specs.Restarts.{IsWarm, IsMadeWith, Holds, StillHolds, Leaves};
ghost use Rattle.als_engine.specs.Restarts.{HoldsLogFor, TakesUpLog};
ghost use Rattle.als_engine.specs.Restarts.{IsStarted, IsRestarted, RefusesRestart};
ghost use Rattle.als_engine.specs.Readers.{AreReaders};
ghost use Rattle.als_engine.specs.Tally.{no_events};

use super::Engine;
use crate::config::Config;
use crate::fault::Fault;
use crate::refused::Refused;
use crate::tally::Tally;
use als_disk::{BlockDisk, Restart};
use als_receiver::Receiver;
use als_store::{Disks, Store};
use als_view::{Reader, View, a_view_goes_on};
use std::alloc::Global;
use std::sync::Wait;

impl<D: BlockDisk> Engine<D> {
    /// A standby over devices that one left: it syncs the log's, the control block's and the pages'
    /// device, and then only reads. It holds the log up to the mark, and each page waits for what
    /// its image may lack. It is Recovering. On a refusal the devices come back.
    ///
    /// BadConfig: a number of the configuration is out of its range, or a device has too few
    /// blocks, or the log's too many. Device: a device failed. Memory: an allocation failed. Else
    /// the first met in reading control block, checkpoint, log header and records: BadControl,
    /// BadHeader, or the fault of a record. LogFull: the log and its tail together exceed the log
    /// device.
    pub fn open<R: Wait>(
        alloc: Global,
        rt: &R,
        disks: Disks<D>,
        config: Config,
    ) -> Result<(Engine<D>, Vec<Reader>), Refused<D>>
        // Whatever the devices hold, an engine comes only where the configuration fits them, and
        // has a valid log.
        ensures fits { IfOk result (λ t. IsWorld config (D.block_count disks.log)
            (D.block_count disks.control) (D.block_count disks.pages)) }
        ensures ok { IfOk result (λ t. IsRestarted config (D.block_count disks.log)
            (D.failures disks.log + D.failures disks.control + D.failures disks.pages)
            (D.attempts disks.log + 1 + (D.attempts disks.control + 1)
            + (D.attempts disks.pages + 1)) t.0.machine) }
        ensures tally { IfOk result (λ t. t.0.tally ≡ no_events) }
        // Its readers, as many as the configuration says.
        ensures readers { IfOk result (λ t. AreReaders t.0.book config.pages t.1.items
            × (length t.1.items ≡ config.readers)) }
        // As many frames as the configuration says there may be, none fewer and none more.
        ensures frames { IfOk result (λ t. t.0.machine.held.pool.frames.most ≡ config.frames) }
        // Where it does not fit them, BadConfig comes and the devices are as they were; else it
        // never comes.
        ensures config { (IsWorld config (D.block_count disks.log) (D.block_count disks.control)
            (D.block_count disks.pages) → ⊥)
            → IfErr result (λ r. (r.fault ≡ fault.BadConfig) × (r.disks ≡ disks)) }
        ensures err { IsWorld config (D.block_count disks.log) (D.block_count disks.control)
            (D.block_count disks.pages)
            → IfErr result (λ r. RefusesRestart config (D.block_count disks.log)
            (D.slot r.disks.log) (D.slot r.disks.control)
            (D.failures disks.log + D.failures disks.control + D.failures disks.pages)
            (D.failures r.disks.log + D.failures r.disks.control + D.failures r.disks.pages)
            r.fault) }
        // The devices come back, of which each block is as it was or as a sync leaves it; each was
        // called once at most.
        ensures back_log { IfErr result (λ r.
            AreLeft (D.block_count disks.log) (D.slot disks.log) (D.slot r.disks.log)) }
        ensures back_control { IfErr result (λ r. AreLeft (D.block_count disks.control)
            (D.slot disks.control) (D.slot r.disks.control)) }
        ensures back_pages { IfErr result (λ r.
            AreLeft config.pages (D.slot disks.pages) (D.slot r.disks.pages)) }
        ensures counts { IfErr result (λ r. (D.block_count r.disks.log ≡ D.block_count disks.log)
            × (D.block_count r.disks.control ≡ D.block_count disks.control)
            × (D.block_count r.disks.pages ≡ D.block_count disks.pages)) }
        ensures attempts { IfErr result (λ r.
            IsOnceAtMost (D.attempts disks.log) (D.attempts r.disks.log)
            × IsOnceAtMost (D.attempts disks.control) (D.attempts r.disks.control)
            × IsOnceAtMost (D.attempts disks.pages) (D.attempts r.disks.pages)) }
        // Whatever the pages hold: devices that hold a log give an engine that begins again with
        // that very log, up to the mark,
        ensures only { (n : Node) → HoldsLogFor config (D.block_count disks.log)
            (D.block_count disks.control) (D.block_count disks.pages)
            (D.slot disks.log) (D.slot disks.control) n
            → IfOk result (λ t. TakesUpLog n t.0.machine) }
        // or else a device failed or an allocation failed.
        ensures lost { (n : Node) → HoldsLogFor config (D.block_count disks.log)
            (D.block_count disks.control) (D.block_count disks.pages)
            (D.slot disks.log) (D.slot disks.control) n
            → IfErr result (λ r. (r.fault ≡ fault.Device) ⊎ (r.fault ≡ fault.Memory)) }
        // Devices that hold a log, a control state and a checkpoint, and images of the pages, give an
        // engine that begins again with these,
        ensures warm { (n : Node) → Holds config (D.block_count disks.log)
            (D.block_count disks.control) (D.block_count disks.pages)
            (D.slot disks.log) (D.slot disks.control) (D.slot disks.pages) n
            → IfOk result (λ t. IsStarted config n t.0.machine) }
        // or else a device failed or an allocation failed, and the devices still hold the same.
        ensures bare { (n : Node) → Holds config (D.block_count disks.log)
            (D.block_count disks.control) (D.block_count disks.pages)
            (D.slot disks.log) (D.slot disks.control) (D.slot disks.pages) n
            → IfErr result (λ r. ((r.fault ≡ fault.Device) ⊎ (r.fault ≡ fault.Memory))
            × StillHolds config (D.block_count r.disks.log) (D.block_count r.disks.control)
            (D.block_count r.disks.pages) (D.slot r.disks.log) (D.slot r.disks.control)
            (D.slot r.disks.pages) n) }
        // Devices that were left with no crash need not be synced: they are taken up by one outcome
        // of the sync that comes first, by one content of each block, which a read might have given.
        ensures synced { IfOk result (λ t. (kept : Synced (D.slot disks.log) (D.slot disks.control)
            (D.slot disks.pages))
            × ((n : Node) → IsNode config.pages (D.block_count disks.log) kept.log_now
            kept.control_now kept.pages_now n → IsStarted config n t.0.machine)) }
        // That outcome gives the log too, whatever the pages hold: the engine begins again with the
        // log that it holds and with what its control block says.
        ensures kept { IfOk result (λ t. (kept : Synced (D.slot disks.log) (D.slot disks.control)
            (D.slot disks.pages))
            × ((n : Node) → HoldsLog config.pages (D.block_count disks.log) kept.log_now
            kept.control_now n → TakesUpLog n t.0.machine)
            × ((n : Node) → IsNode config.pages (D.block_count disks.log) kept.log_now
            kept.control_now kept.pages_now n → IsStarted config n t.0.machine)) }
        // Where they fit, a failed device or want of memory is in the way, or there is an outcome
        // that holds no log.
        ensures unsynced { IsWorld config (D.block_count disks.log) (D.block_count disks.control)
            (D.block_count disks.pages)
            → IfErr result (λ r. ((r.fault ≡ fault.Device) ⊎ (r.fault ≡ fault.Memory))
            ⊎ ((kept : Synced (D.slot disks.log) (D.slot disks.control) (D.slot disks.pages))
            × ((n : Node) → HoldsLog config.pages (D.block_count disks.log) kept.log_now
            kept.control_now n → ⊥))) }
    {
        if !config.fits(&disks) {
            return Err(Refused {
                disks,
                fault: Fault::BadConfig,
            });
        }
        let pages = config.pages as u32;
        let Ok((unlisted, readers)) = View::new(alloc, rt, pages, config.readers as usize, false)
        else {
            return Err(Refused {
                disks,
                fault: Fault::Memory,
            });
        };
        match Store::open(alloc, disks, pages, config.frames as usize) {
            Ok(opened) => {
                let (store, waiting) = opened.into_parts();
                let shown = unlisted.with_waiting(waiting);
                a_view_goes_on();
                let receiver = Receiver::new(alloc, store.end(), pages);
                let engine = Engine {
                    alloc,
                    store,
                    receiver,
                    limit: config.pending as usize,
                    refused: None,
                    shown,
                    told: Tally::none(),
                };
                Ok((engine, readers))
            }
            Err(unopened) => {
                drop(readers);
                unlisted.close(rt);
                Err(Refused {
                    disks: unopened.disks,
                    fault: Fault::from(unopened.fault),
                })
            }
        }
    }
}

impl<D: Restart> Engine<D> {
    /// What a crash leaves of the devices: in each block the one of its candidates that the picks
    /// name. The blocks of the log's device take the picks first, then those of the control device,
    /// then those of the pages. The answer tells how many picks were used.
    pub fn crash<R: Wait>(self, rt: &R, picks: &[u8]) -> (Disks<D>, usize)
        ensures picked { CrashesTo self.machine.held picks.now
            (devices_of D.slot D.block_count result.0) result.1 }
        // Where no device has failed, one of the first picks names the control state that is left.
        ensures state { self.machine.held.broken ≡ false → NamesState self.machine.held picks.now
            (devices_of D.slot D.block_count result.0) }
        // Whatever the devices held when the engine was made: all acknowledged bytes are there, and
        // are the log's.
        ensures kept { AreKept self.machine.held (D.slot result.0.log) (D.slot result.0.control) }
        ensures log { AreSettled (D.slot result.0.log) }
        ensures control { AreSettled (D.slot result.0.control) }
        ensures pages { AreSettled (D.slot result.0.pages) }
        ensures log_blocks { D.block_count result.0.log ≡ self.machine.held.blocks }
        ensures control_blocks { 321 ≤ D.block_count result.0.control }
        ensures page_blocks { self.machine.held.pages ≤ D.block_count result.0.pages }
        ensures failures { D.failures result.0.log + D.failures result.0.control
            + D.failures result.0.pages ≡ self.machine.held.failures }
        ensures attempts { D.attempts result.0.log + D.attempts result.0.control
            + D.attempts result.0.pages ≡ self.machine.held.attempts }
        ensures leaves { (config : AnyConfig) → IsMadeWith config self.machine → IsWarm self.machine
            → (n : Node) × Leaves self.machine n
            × Holds config (D.block_count result.0.log) (D.block_count result.0.control)
            (D.block_count result.0.pages) (D.slot result.0.log) (D.slot result.0.control)
            (D.slot result.0.pages) n }
    {
        let Engine {
            alloc: _,
            store,
            receiver,
            limit: _,
            refused: _,
            shown,
            told,
        } = self;
        drop(receiver);
        shown.close(rt);
        drop(told);
        store.crash(picks)
    }
}
