ghost use Rattle.std.specs.Prelude.{◌≡◌};
ghost use Rattle.als_folder.specs.Layouts.{check_of};

use crate::fault::Fault;
use crate::part::Part;
use crate::trouble::{Trouble, Wrong};

/// What a file holds that has no control block beside it.
#[derive(Clone, Copy, Debug, PartialEq, Eq)]
pub(crate) enum Holding {
    /// It is missing, or has no more than the file of an empty database.
    Nothing,
    /// It has more, or is no file.
    Data,
}

/// Whether a new database may take the place of this log and these pages.
pub(crate) fn check_room(log: Holding, pages: Holding) -> Result<(), Fault>
    ensures { result ≡ check_of log pages }
{
    let part = match (log, pages) {
        (Holding::Nothing, Holding::Nothing) => return Ok(()),
        (Holding::Data, _) => Part::Log,
        (Holding::Nothing, Holding::Data) => Part::Pages,
    };
    let wrong = Wrong::NoControl;
    Err(Fault::Device(Trouble { part, wrong }))
}
