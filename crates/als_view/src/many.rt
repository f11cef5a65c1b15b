use als_record::{KeptImage, Lsn};

/// What a reader is answered of many keys: the images of all of them after the published commits, in
/// the keys' order, how many these commits are, and the LSN of the last of them, 0 without one.
#[derive(Drop)]
pub struct Many {
    pub images: Vec<KeptImage>,
    pub commits: u64,
    pub lsn: Lsn,
}
