ghost use Rattle.std.specs.Prelude.{◌≡◌, ◌≤◌, IfOk, IfErr};
ghost use Rattle.als_log.specs.declared.fault.Fault.TheVariants.{Memory as OutOfMemory};

use crate::fault::Fault;
use crate::part::Part;
use als_record::LogHeader;
use std::alloc::Global;
use std::marker::Model;

/// What a new log has in memory: its header, and the room for a record that is read back. It is
/// made before a device is touched.
#[derive(Drop)]
pub struct NewLog {
    pub(crate) alloc: Global,
    pub(crate) pages: u32,
    pub(crate) text: Vec<u8>,
    pub(crate) part: Part,
}

impl Model for NewLog {
    ghost use Rattle.std.specs.Prelude.{ℕ, ◌≡◌, ◌≤◌};
    ghost use Rattle.als_record.specs.LogText.{header_bytes};

    /// Its database's page count.
    ghost Value = { ℕ };

    ghost view = { λ new. new.pages };

    ghost invariant = { λ new. (1 ≤ new.pages) × (new.pages ≤ 4096)
        × (new.text.items ≡ header_bytes new.pages) };
}

impl NewLog {
    /// The memory of an empty log of a database of `pages` pages.
    ///
    /// `Memory`: an allocation failed.
    pub fn new(alloc: Global, pages: u32) -> Result<NewLog, Fault>
        requires { 1 ≤ pages × (pages ≤ 4096) }
        ensures ok { IfOk result (λ new. new ≡ pages) }
        ensures err { IfErr result (λ e. e ≡ OutOfMemory) }
    {
        let header = LogHeader { pages }.encode();
        let part = Part::new(alloc)?;
        let mut text = Vec::new(alloc);
        text.extend_from_slice(header.as_slice())?;
        Ok(NewLog {
            alloc,
            pages,
            text,
            part,
        })
    }
}
