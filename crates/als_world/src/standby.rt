ghost use Rattle.std.specs.Prelude.{◌≡◌, ◌<◌, ◌≤◌, false, length};
ghost use Rattle.als_engine.specs.Events.{Reads, ShowsPage};
ghost use Rattle.als_engine.specs.Machine.{Keeps as EngineKeeps};
ghost use Rattle.als_engine.specs.Readers.{AreReaders};
ghost use Rattle.als_world.specs.Runs.{Acts, is_crash};

use crate::acting::act;
use crate::slots::Slots;
use crate::step::{WorldReply, WorldStep};
use als_disk::BlockDisk;
use als_engine::{Engine, Fault, Reader};
use als_page::Page;
use als_record::{Lsn, Record};
use std::marker::Model;
use std::sync::Wait;

/// An engine that is up, and the readers of what it publishes, one at least. The first of them
/// reads where a step does.
pub struct Standby<D: BlockDisk> {
    engine: Engine<D>,
    readers: Vec<Reader>,
}

impl<D: BlockDisk> Model for Standby<D> {
    ghost use Rattle.std.specs.Prelude.{◌≤◌, length};
    ghost use Rattle.als_engine.specs.Readers.{AreReaders};
    ghost use Rattle.als_engine.specs.Serving.{Serving};

    ghost Value = { Serving };

    ghost view = { λ s. s.engine };

    ghost invariant = { λ s. AreReaders s.engine.book s.engine.machine.held.pages s.readers.items
        × (1 ≤ length s.readers.items) };
}

// Written out: a derived drop is proved wherever a standby is dropped, this one only here.
impl<D: BlockDisk + Drop> Drop for Standby<D> {
    fn drop(self) {
        let Standby { engine, readers } = self;
        drop(readers);
        drop(engine);
    }
}

impl<D: BlockDisk> Standby<D> {
    /// An engine with its readers.
    pub fn new(engine: Engine<D>, readers: Vec<Reader>) -> Standby<D>
        requires readers { AreReaders engine.book engine.machine.held.pages readers.items }
        requires some { 1 ≤ length readers.items }
        ensures { result ≡ engine }
    {
        Standby { engine, readers }
    }

    /// The engine, to ask it.
    pub fn engine(&self) -> &Engine<D>
        ensures { result.now ≡ self.now }
    {
        &self.engine
    }

    /// The engine alone: its readers are dropped.
    pub fn into_engine(self) -> Engine<D>
        ensures { result ≡ self }
    {
        let Standby { engine, readers } = self;
        drop(readers);
        engine
    }

    /// The engine's page as it is now.
    pub fn page_now(&mut self, page: u32) -> Result<Page, Fault>
        requires { page < self.old.machine.held.pages }
        ensures shows { ShowsPage self.old.machine page result self.new.machine }
    {
        self.engine.page_now(page)
    }

    /// The engine's record at an LSN.
    pub fn record_at(&mut self, lsn: Lsn) -> Result<Option<Record>, Fault>
        ensures reads { Reads self.old.machine lsn result self.new.machine }
    {
        self.engine.record_at(lsn)
    }

    /// One step of a standby that stays up.
    pub fn act<R: Wait>(&mut self, rt: &R, slots: &mut Slots, step: &WorldStep) -> WorldReply
        requires { is_crash step.now ≡ false }
        ensures acts { Acts self.old.machine slots.old step.now result self.new.machine slots.new }
        ensures keeps { EngineKeeps self.old.machine self.new.machine }
    {
        let Standby { engine, readers } = self;
        act(rt, engine, &mut readers[0], slots, step)
    }
}
