use als_record::{Image, Lsn};

/// What a reader is answered: the value of a key after the published commits, how many these are,
/// and the LSN of the last of them, 0 without one.
#[derive(Drop)]
pub struct Answer {
    pub value: Image,
    pub commits: u64,
    pub lsn: Lsn,
}
