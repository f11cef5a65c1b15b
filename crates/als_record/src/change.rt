use crate::kept_image::KeptImage;
use crate::key::Key;
use crate::lsn::Lsn;

/// What redo does for one update or compensation: the key gets the after image, and its page the
/// record's LSN. It has 48 bytes, and is copied as it stands.
#[derive(Clone, Copy)]
pub struct Change {
    pub lsn: Lsn,
    pub key: Key,
    pub after: KeptImage,
}
