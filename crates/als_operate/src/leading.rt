// A primary's folder that becomes a standby's again.
ghost use Rattle.std.specs.Prelude.{◌<◌, length, OnOk};

use crate::fault::Fault;
use crate::greeting::{Lines, call_from};
use crate::introducing::Introducing;
use crate::standby_command::Following;
use als_epochs::{History, Step, judge};
use als_folder::{Fault as FolderFault, Folder, Part, Trouble, Wrong};
use als_record::Lsn;
use std::fs::File;
use std::net::Net;
use std::rt::Files;
use std::time::Clock;

/// A folder that is a primary's follows only who took over from it. Its role is taken away once the
/// primary that it is to follow has said so, and the folder's log may go on with it. It is taken away
/// before anything is adopted: without it, nobody writes the folder as a primary. Where its log parted
/// from the primary's, the session refuses it, and it stays a primary's. The connection over which
/// that was asked comes back.
///
/// Device: nobody took over from the folder, or the file of its role failed. Session, Stream: the
/// primary was asked, and nobody serves at the address, what came is no history, or the network failed.
pub(crate) fn give_up<R: AllocGlobal + Files<File = File> + Net + Clock>(
    rt: &R,
    folder: &Folder,
    following: Following<'_>,
    introducing: &mut Introducing,
    end: Lsn,
    own: &History,
) -> Result<Option<Lines<R::Stream>>, Fault> {
    match folder.role(rt)? {
        None => Ok(None),
        // The folder has gone on since: it wrote nothing of its own history.
        Some(role) if role.epoch < own.epoch() => {
            folder.remove_role(rt)?;
            Ok(None)
        }
        Some(_) => {
            let (lines, offered) = call_from(rt, following, introducing, end, own)?;
            check_taken_over(own, &offered)?;
            if may_adopt(own, &offered, end) {
                folder.remove_role(rt)?;
            }
            Ok(Some(lines))
        }
    }
}

/// Refuses a history of no more takeovers.
fn check_taken_over(own: &History, offered: &History) -> Result<(), Fault>
    ensures { OnOk result (length own.now < length offered.now) }
{
    if own.epoch() < offered.epoch() {
        return Ok(());
    }
    Err(Fault::Folder(FolderFault::Device(Trouble {
        part: Part::Role,
        wrong: Wrong::OfPrimary,
    })))
}

/// Whether a log that ends there may go on with another history.
fn may_adopt(own: &History, offered: &History, end: Lsn) -> bool {
    matches!(judge(own, offered, end), Ok(Step::Adopt))
}
