ghost use Rattle.std.specs.Prelude.{◌≡◌};
ghost use Rattle.als_world.specs.Standing.{Standing, Shows};
ghost use Rattle.als_world.specs.Asking.{IsEngineOf, TellsPage, TellsRecord, TellsTo};

use crate::place::Place;
use crate::world::World;
use als_disk::BlockDisk;
use als_engine::{Config, Engine, Fault};
use als_page::Page;
use als_record::{Lsn, Record};

impl<D: BlockDisk> World<D> {
    /// With what its standby was made, and begins again.
    pub fn config(&self) -> Config
        ensures { result ≡ self.now.config }
    {
        self.config
    }

    /// The engine, to ask it; None while the world is down.
    pub fn engine(&self) -> Option<&Engine<D>>
        ensures engine { (s : Standing) → Shows D.slot D.block_count self.now s
            → IsEngineOf result s }
    {
        match &self.place {
            Place::Up(standby) => Some(standby.engine()),
            Place::Down(_) => None,
        }
    }

    /// The engine's page as it is now, which may have to be read from its block; None past the page
    /// count. Stopped: the world is down. The engine's refusals: Device, BadPage.
    pub fn page_now(&mut self, page: u32) -> Result<Option<Page>, Fault>
        ensures tells { TellsTo D.slot D.block_count self.old
            (λ old new. TellsPage old page result new) self.new }
        ensures same { self.new.config ≡ self.old.config }
    {
        match &mut self.place {
            Place::Up(standby) => {
                if page >= standby.engine().pages() {
                    return Ok(None);
                }
                match standby.page_now(page) {
                    Ok(shown) => Ok(Some(shown)),
                    Err(fault) => Err(fault),
                }
            }
            Place::Down(_) => Err(Fault::Stopped),
        }
    }

    /// The engine's record at an LSN, which may have to be read from its log device. Stopped: the
    /// world is down. The engine's refusals: Device, Memory.
    pub fn record_at(&mut self, lsn: Lsn) -> Result<Option<Record>, Fault>
        ensures tells { TellsTo D.slot D.block_count self.old
            (λ old new. TellsRecord old lsn result new) self.new }
        ensures same { self.new.config ≡ self.old.config }
    {
        match &mut self.place {
            Place::Up(standby) => standby.record_at(lsn),
            Place::Down(_) => Err(Fault::Stopped),
        }
    }
}
