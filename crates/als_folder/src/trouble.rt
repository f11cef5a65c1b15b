use crate::part::Part;
use als_disk::Failure;
use std::io;
use std::io::ErrorKind;

/// What is wrong with a part of a folder.
#[derive(Clone, Copy, Debug, PartialEq, Eq)]
pub struct Trouble {
    /// Which it is.
    pub part: Part,
    /// What is wrong with it.
    pub wrong: Wrong,
}

/// What can be wrong with a part of a folder. The folder tells of its files; those who read them
/// tell of what they hold.
#[derive(Clone, Copy, Debug, PartialEq, Eq)]
pub enum Wrong {
    /// It is not there, or a link that leads nowhere.
    Missing,
    /// It is no folder.
    NoFolder,
    /// It may not be opened, or not written.
    Denied,
    /// Its file system is read-only.
    ReadOnly,
    /// Another program has it.
    Locked,
    /// There is a database in it already.
    Kept,
    /// It is not empty, or no file, and there is no control block beside it.
    NoControl,
    /// There is no room on its disk.
    NoRoom,
    /// Its disk gave an input or output error, or is gone.
    Gone,
    /// It is shorter than what it has to hold.
    Short,
    /// It has so many blocks, and its database fewer pages.
    Long { blocks: u64, pages: u32 },
    /// It was removed while it was open, or another file took its name.
    Removed,
    /// It was cut to this length while it was open.
    Cut { bytes: u64 },
    /// It could not be opened, locked, read, written or synced.
    Failed,
    /// The log does not begin with the header of its database.
    NoHeader,
    /// A record of the log is none, or may not follow those before it.
    BadRecord,
    /// The log has no room for more.
    Full,
    /// The control block or a checkpoint is damaged, or not that of this database.
    BadControl,
    /// The block of this page is damaged.
    BadPage { page: u32 },
    /// The file that says which epoch a primary writes says something else.
    BadRole,
    /// The folder is a primary's, and nobody took over from it.
    OfPrimary,
}

/// What the failure of a device's file says of it.
pub(crate) fn wrong_of_failure(failure: Failure) -> Wrong {
    match failure {
        Failure::Call { number } => wrong_of(&io::Error::from_raw_os_error(number)),
        Failure::Removed => Wrong::Removed,
        Failure::Cut { bytes } => Wrong::Cut { bytes },
    }
}

/// EIO, ENXIO and ENODEV, which have no kind of their own.
const GONE: [i32; 3] = [5, 6, 19];

/// What a failure says of a part.
pub(crate) fn wrong_of(error: &io::Error) -> Wrong {
    match error.kind() {
        ErrorKind::NotFound => Wrong::Missing,
        ErrorKind::NotADirectory => Wrong::NoFolder,
        ErrorKind::PermissionDenied | ErrorKind::IsADirectory => Wrong::Denied,
        ErrorKind::ReadOnlyFilesystem => Wrong::ReadOnly,
        ErrorKind::StorageFull | ErrorKind::QuotaExceeded | ErrorKind::FileTooLarge => {
            Wrong::NoRoom
        }
        ErrorKind::StaleNetworkFileHandle => Wrong::Gone,
        ErrorKind::UnexpectedEof => Wrong::Short,
        _ => match error.raw_os_error() {
            Some(number) if GONE.contains(&number) => Wrong::Gone,
            _ => Wrong::Failed,
        },
    }
}
