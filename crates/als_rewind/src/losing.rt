ghost use Rattle.std.specs.Prelude.{◌≡◌, true, false, OnOk, IfErr};
ghost use Rattle.als_rewind.specs.declared.fault.Fault.TheVariants.{Loses as LosesCommits};
ghost use Rattle.als_rewind.specs.Losses.{named_number, is_agreed};

use crate::fault::Fault;
use als_lookback::{Fault as LookFault, PastCommits, Until, open, past_commits};
use als_progress::{Advance, Watched, Work};
use als_record::Lsn;
use std::alloc::Global;
use std::fs::File;
use std::io::Read;
use std::rt::Files;

/// What a node loses that is taken back.
pub struct LostCommits {
    /// The commits of its log from there on.
    pub past: PastCommits,
    /// Whether a record behind that is damaged: the commits behind it are not counted.
    pub is_damaged: bool,
    /// Whether its folder is a primary's. Where it is a standby's, clients may have been answered for these
    /// commits, since it may have acknowledged them.
    pub is_primary: bool,
}

// Written out: a derived drop is proved wherever they are dropped, this one only here.
impl Drop for LostCommits {
    fn drop(self) {
        let LostCommits {
            past,
            is_damaged: _,
            is_primary: _,
        } = self;
        drop(past);
    }
}

/// Receives what a node loses, before anything is written.
pub trait Loses {
    /// These commits are lost with what is behind an LSN.
    fn loses(&mut self, losses: &LostCommits);
}

/// What the node of a folder has from an LSN on, which would be lost if it was taken back to there. The
/// folder is only read. `advance` receives how far its log was.
///
/// As `als_lookback::open`. Stream: the log failed. Memory: an allocation failed.
pub fn lost_commits<R: AllocGlobal + Files<File = File>, A: Advance>(
    rt: &R,
    dir: &str,
    from: Lsn,
    advance: &mut A,
) -> Result<LostCommits, LookFault> {
    let source = open(rt, dir)?;
    let whole = source.reach(Until::End);
    let (reader, folder) = source.into_parts();
    let is_primary = match &folder {
        Some(folder) => folder.role(rt)?.is_some(),
        None => false,
    };
    let reader = Watched::new(reader, Work::Judge, whole, advance);
    let losses = counted(rt.alloc(), reader, from, is_primary)?;
    drop(folder);
    Ok(losses)
}

/// The commits of a log from an LSN on, in front of the first record that is damaged.
pub(crate) fn counted<L: Read + Drop>(
    alloc: Global,
    log: L,
    from: Lsn,
    is_primary: bool,
) -> Result<LostCommits, LookFault> {
    let mut past = PastCommits::new(alloc, from);
    let is_damaged = match past_commits(alloc, log, &mut past) {
        Ok(()) => false,
        Err(fault) => {
            check_damage(fault)?;
            true
        }
    };
    Ok(LostCommits {
        past,
        is_damaged,
        is_primary,
    })
}

/// Refused, unless it is a log's bytes that are at fault.
fn check_damage(fault: LookFault) -> Result<(), LookFault> {
    match fault {
        LookFault::Shape(_) | LookFault::Invalid(_) | LookFault::Cut => Ok(()),
        _ => Err(fault),
    }
}

/// Refused, unless as many commits are lost as a person says, or none.
///
/// Loses: so many are lost.
pub fn check_agreed(lost: u64, named: Option<u64>) -> Result<(), Fault>
    ensures ok { OnOk result (is_agreed lost named ≡ true) }
    ensures err { IfErr result (λ fault. (fault ≡ LosesCommits lost)
        × (is_agreed lost named ≡ false)) }
{
    if is_agreed(lost, named) {
        Ok(())
    } else {
        Err(Fault::Loses { commits: lost })
    }
}

/// Whether none is lost, or just as many as a person says.
fn is_agreed(lost: u64, named: Option<u64>) -> bool
    ensures { result ≡ is_agreed lost named }
{
    lost == 0 || named_as(named) == lost
}

/// The number that a person says, 0 where nobody says one.
fn named_as(named: Option<u64>) -> u64
    ensures { result ≡ named_number named }
{
    match named {
        Some(count) => count,
        None => 0,
    }
}
