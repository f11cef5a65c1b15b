//! The folder of a standby: the files of its three devices, held for one program.
#![tactic(auto)]

// The files of a folder, and the folder itself.
mod part;
// What is wrong with one of them.
mod trouble;
// Which of them a refusal tells of.
mod refusal;
// Why a folder is refused.
mod fault;
// How long a log may be, and how much of it stays in memory.
mod limit;
// How large its devices are.
mod lengths;
// The devices of a folder.
mod devices;
// The first errors of the devices' files.
mod errors;
// Whether a file is empty.
mod zeros;
// Where a new database may be laid out.
mod holding;
// What a folder was found to be.
mod vacancy;
// Which epoch the primary of a folder writes.
mod role;
// Which folder one is.
mod folder_id;
// The files that are locked with their folder.
mod locks;
// Whether the files still have their names.
mod name_watch;
// The folder.
mod folder;

pub use devices::{DeviceFiles, Devices};
pub use fault::Fault;
pub use folder::Folder;
pub use folder_id::FolderId;
pub use lengths::Sizes;
pub use limit::{FOLLOWED_PIECES, LOG_LIMIT};
pub use name_watch::NameWatch;
pub use part::Part;
pub use refusal::trouble_of;
pub use role::{EPOCH_LIMIT, Role};
pub use trouble::{Trouble, Wrong};
pub use vacancy::{Found, Vacancy};
