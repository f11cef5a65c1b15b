ghost use Rattle.std.specs.Prelude.{◌≡◌, ◌≤◌, ◌+◌, length, IfOk, IfErr};
ghost use Rattle.als_engine.specs.declared.fault.Fault.TheVariants as fault;
ghost use Rattle.als_engine.specs.Formatting.{FormatsWorld, RefusesFormat};
ghost use Rattle.als_engine.specs.Machine.{Machine};
ghost use Rattle.als_engine.specs.Readers.{AreReaders};
ghost use Rattle.als_engine.specs.Restarts.{IsMadeWith, IsWarm};
ghost use Rattle.als_world.specs.declared.place.Place.TheVariants as place;
ghost use Rattle.als_world.specs.Slots.{no_leases};
ghost use Rattle.als_world.specs.Standing.{Standing, Up, Shows, IsSteady, IsTrue, IsLeftBy};

use crate::place::Place;
use crate::slots::Slots;
use crate::standby::Standby;
use als_disk::BlockDisk;
use als_engine::{Config, Disks, Engine, Fault, Reader, Refused};
use std::alloc::Global;
use std::sync::Wait;

/// What a run of steps goes over: a standby that is up, with its readers, or the devices that it
/// left, and the slots of its workers. It knows with what a standby begins again.
///
/// A world that is dropped while it is up never frees what its readers look at: `into_disks` does.
pub struct World<D: BlockDisk> {
    pub(crate) config: Config,
    pub(crate) slots: Slots,
    pub(crate) place: Place<D>,
}

// Written out: a derived drop is proved part by part wherever a world is dropped, this one only
// here.
impl<D: BlockDisk + Drop> Drop for World<D> {
    fn drop(self) {
        let World {
            config: _,
            slots,
            place,
        } = self;
        drop(slots);
        drop(place);
    }
}

impl<D: BlockDisk> World<D> {
    /// A world with this engine, which was made with this configuration, with readers of it, one at
    /// least, and with empty slots for so many workers, 1 to 8. Where there is no memory for the
    /// slots the engine and its readers come back.
    pub fn new(
        alloc: Global,
        engine: Engine<D>,
        readers: Vec<Reader>,
        config: Config,
        workers: usize,
    ) -> Result<World<D>, (Engine<D>, Vec<Reader>)>
        requires some { 1 ≤ workers }
        requires few { workers ≤ 8 }
        requires readers { AreReaders engine.book engine.machine.held.pages readers.items }
        requires reader { 1 ≤ length readers.items }
        ensures shows { IsMadeWith config engine.machine → IsWarm engine.machine
            → IfOk result (λ w. Shows D.slot D.block_count w
            (Up engine.machine (no_leases workers))) }
        ensures config { IfOk result (λ w. w.config ≡ config) }
        ensures err { IfErr result (λ e. (e.0 ≡ engine) × (e.1 ≡ readers)) }
    {
        match Slots::new(alloc, workers) {
            Ok(slots) => Ok(up(config, slots, Standby::new(engine, readers))),
            Err(_) => Err((engine, readers)),
        }
    }

    /// A world with an engine over a new database, which begins again with this configuration, and
    /// with empty slots for so many workers, 1 to 8. It shows the machine of a new database: from
    /// there a run begins.
    ///
    /// BadConfig, Memory, Device: as the engine's `format` says. The devices come back.
    pub fn format<R: Wait>(
        alloc: Global,
        rt: &R,
        disks: Disks<D>,
        config: Config,
        workers: usize,
    ) -> Result<World<D>, Refused<D>>
        requires some { 1 ≤ workers }
        requires few { workers ≤ 8 }
        ensures shows { IfOk result (λ w. (m : Machine)
            × FormatsWorld config (D.block_count disks.log) (D.block_count disks.pages)
            (D.failures disks.pages) (D.attempts disks.pages)
            (D.failures disks.log + D.failures disks.control + D.failures disks.pages) m
            × Shows D.slot D.block_count w (Up m (no_leases workers))) }
        ensures config { IfOk result (λ w. w.config ≡ config) }
        ensures fault { IfErr result (λ r. RefusesFormat config (D.block_count disks.log)
            (D.block_count disks.control) (D.block_count disks.pages) r.fault) }
        ensures same { IfErr result (λ r. (r.fault ≡ fault.Device → ⊥) → r.disks ≡ disks) }
    {
        let Ok(slots) = Slots::new(alloc, workers) else {
            return Err(unformatted(config, disks));
        };
        match Engine::format(alloc, rt, disks, config) {
            Ok((engine, readers)) => Ok(up(config, slots, Standby::new(engine, readers))),
            Err(refused) => Err(refused),
        }
    }

    /// The devices that the world leaves. It waits for the readers that are in a copy of what is
    /// published, and frees it.
    pub fn into_disks<R: Wait>(self, rt: &R) -> Disks<D>
        ensures left { (s : Standing) → Shows D.slot D.block_count self s
            → IsLeftBy D.slot D.block_count self.config s result }
    {
        let (_, slots, place) = self.into_parts();
        drop(slots);
        match place {
            Place::Up(standby) => standby.into_engine().into_disks(rt),
            Place::Down(disks) => disks,
        }
    }

    /// Its parts.
    pub(crate) fn into_parts(self) -> (Config, Slots, Place<D>)
        ensures config { result.0 ≡ self.config }
        ensures slots { result.1 ≡ self.slots }
        ensures place { result.2 ≡ self.place }
    {
        let World {
            config,
            slots,
            place,
        } = self;
        (config, slots, place)
    }

    /// For the prover alone: what holds of all that a world shows.
    pub(crate) fn settle(&self)
        ensures steady { (s : Standing) → Shows D.slot D.block_count self.now s → IsSteady s }
        ensures whole { (s : Standing) → Shows D.slot D.block_count self.now s → IsTrue s }
    {
        match &self.place {
            Place::Up(standby) => {
                let _ = standby.engine().status();
            }
            Place::Down(_) => {}
        }
    }
}

/// A world that is up.
pub(crate) fn up<D: BlockDisk>(config: Config, slots: Slots, standby: Standby<D>) -> World<D>
    ensures { result ≡ record { config = config; slots = slots; place = place.Up standby } }
{
    World {
        config,
        slots,
        place: Place::Up(standby),
    }
}

/// A world that is down.
pub(crate) fn down<D: BlockDisk>(config: Config, slots: Slots, disks: Disks<D>) -> World<D>
    ensures { result ≡ record { config = config; slots = slots; place = place.Down disks } }
{
    World {
        config,
        slots,
        place: Place::Down(disks),
    }
}

/// Devices that are not formatted, since there is no memory for the slots: the configuration is
/// looked at first.
fn unformatted<D: BlockDisk>(config: Config, disks: Disks<D>) -> Refused<D>
    ensures fault { RefusesFormat config (D.block_count disks.log) (D.block_count disks.control)
        (D.block_count disks.pages) result.fault }
    ensures same { result.disks ≡ disks }
{
    let fault = if config.fits(&disks) {
        Fault::Memory
    } else {
        Fault::BadConfig
    };
    Refused { disks, fault }
}
