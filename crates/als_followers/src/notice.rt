use als_record::Lsn;
use als_ship::Fault;
use std::net::IpAddr;

/// A remark on a follower, for who runs the primary.
#[derive(Clone, Copy)]
pub struct Notice {
    pub peer: IpAddr,
    pub what: What,
}

/// What a follower did.
#[derive(Clone, Copy)]
pub enum What {
    /// It asked, and goes on from there.
    Came(Lsn),
    /// Its session ended with all that was sent acknowledged.
    Ended,
    /// Its session ended early.
    Went(Fault),
    /// It asked for the log, and its session was refused before it followed.
    Refused(Fault),
    /// Its address may not come. It was hung up on.
    Stranger,
    /// The follower of another session has the id of its folder: one of the two is a copy. It was hung up on.
    Twin,
    /// As many sessions as may be go on. It was hung up on.
    Crowded,
}
