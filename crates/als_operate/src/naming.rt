// The id of a standby's folder.
ghost use Rattle.std.specs.Prelude.{◌≡◌, None, IfSome, true, false};

use crate::fault::Fault;
use als_folder::{Folder, FolderId};
use std::fs::File;
use std::random::RandomSource;
use std::rt::Files;

/// The id of a folder, and whether its file has it.
#[derive(Clone, Copy)]
pub(crate) struct Named {
    pub id: FolderId,
    pub is_kept: bool,
}

/// The id that was found, or else the one that was drawn.
fn named_by(found: Option<FolderId>, drawn: FolderId) -> Named
    ensures kept { IfSome found (λ id. (result.id ≡ id) × (result.is_kept ≡ true)) }
    ensures drawn { found ≡ None → (result.id ≡ drawn) × (result.is_kept ≡ false) }
{
    match found {
        Some(id) => Named { id, is_kept: true },
        None => Named {
            id: drawn,
            is_kept: false,
        },
    }
}

/// The id that a folder has, or else a new one, which no file has yet.
///
/// Folder: its file failed. Stream: the system gave no random bytes.
pub(crate) fn name_of<R: AllocGlobal + Files<File = File> + RandomSource>(
    rt: &R,
    folder: &Folder,
) -> Result<Named, Fault> {
    let found = folder.id(rt)?;
    let drawn = FolderId::draw(rt)?;
    Ok(named_by(found, drawn))
}

/// Makes a new id that of the folder. Nothing was acknowledged under it before. Folder: the folder or the file failed.
pub(crate) fn keep_name<R: AllocGlobal + Files<File = File>>(
    rt: &R,
    folder: &Folder,
    named: Named,
) -> Result<(), Fault> {
    if !named.is_kept {
        folder.make_id(rt, named.id)?;
    }
    Ok(())
}
