ghost use Rattle.std.specs.Prelude.{◌≡◌, ◌↔◌, Err, IsTrue, OnOk, IfErr};
ghost use Rattle.als_engine.specs.declared.fault.Fault.TheVariants.{BadConfig};
ghost use Rattle.als_operate.specs.declared.fault.Fault.TheVariants.{Refused};
ghost use Rattle.als_lead.specs.NewDatabases.{HasSizes};

use crate::devices::lay_out_in;
use als_engine::{Fault as EngineFault, LOG_BLOCK_LIMIT};
use als_folder::{Fault as FolderFault, Folder, Found, Part, Trouble, Wrong};
use als_operate::{Fault, named};
use als_record::PAGE_LIMIT;
use std::fs::File;
use std::rt::Files;
use std::sync::Wait;

/// The database of a new primary, as it is asked for.
#[derive(Clone, Copy, Debug)]
pub struct NewDatabase<'a> {
    /// Its folder, which is there and has no database.
    pub dir: &'a str,
    /// Its pages, 1 to 4,096.
    pub pages: u64,
    /// The blocks of its log device, 1 to 4,194,304.
    pub log_blocks: u64,
}

/// Lays out the database of a new primary in a folder that has none, and lets go of the folder. A stop on the
/// way leaves a folder without a database, in which it may be done again, or with the whole one.
///
/// BadConfig: a number is out of its range; no file was touched. Device: the folder or one of its files
/// failed, another program has it, or there is a database, or what may be one; nothing was touched then.
/// Memory: allocation failed.
pub fn lay_out<R: AllocGlobal + Files<File = File> + Wait>(
    rt: &R,
    new: NewDatabase<'_>,
) -> Result<(), Fault>
    // Whatever else is wrong.
    ensures numbers { ¬ (HasSizes new.entry) → result ≡ Err (Refused BadConfig) }
{
    match check_sizes(new) {
        Ok(()) => lay_out_found(rt, new),
        Err(fault) => Err(fault),
    }
}

/// The same, of sizes that are in range.
fn lay_out_found<R: AllocGlobal + Files<File = File> + Wait>(
    rt: &R,
    new: NewDatabase<'_>,
) -> Result<(), Fault> {
    let folder = Folder::hold(rt, new.dir)?;
    let vacancy = match folder.find(rt)? {
        Found::Kept => return Err(kept()),
        Found::Vacant(vacancy) => vacancy,
    };
    match lay_out_in(rt, &folder, vacancy, new.pages, new.log_blocks) {
        Ok(()) => Ok(()),
        Err(fault) => Err(named(&folder, fault)),
    }
}

/// The folder has a database.
fn kept() -> Fault {
    Fault::Folder(FolderFault::Device(Trouble {
        part: Part::Itself,
        wrong: Wrong::Kept,
    }))
}

/// Refuses sizes that are out of range: BadConfig.
fn check_sizes(new: NewDatabase<'_>) -> Result<(), Fault>
    ensures within { OnOk result (HasSizes new.entry) }
    ensures beyond { IfErr result (λ fault. (fault ≡ Refused BadConfig) × ¬ (HasSizes new.entry)) }
{
    if has_sizes(new) {
        Ok(())
    } else {
        Err(Fault::Refused(EngineFault::BadConfig))
    }
}

/// Whether the sizes are in range.
fn has_sizes(new: NewDatabase<'_>) -> bool
    ensures { IsTrue result ↔ HasSizes new.entry }
{
    if new.pages < 1 || new.pages > PAGE_LIMIT as u64 {
        return false;
    }
    new.log_blocks >= 1 && new.log_blocks <= LOG_BLOCK_LIMIT
}
