use crate::peers::Peers;

/// What the command line asks for.
#[derive(Clone, Copy)]
pub enum Command<'a> {
    /// Record lines to a log text: its bytes, or lines of hexadecimal digits.
    Make {
        hex: bool,
        explain: bool,
    },
    /// A script to what its lines print.
    Sim {
        explain: bool,
    },
    /// A log file to one follower, or to one after another.
    Ship {
        log: &'a str,
        listen: &'a str,
        timeout: u64,
        keep: bool,
        follow: bool,
        window: Option<u32>,
        explain: bool,
    },
    /// The log of a folder's node to one follower, or to one after another.
    ShipNode {
        dir: &'a str,
        listen: &'a str,
        timeout: u64,
        keep: bool,
        window: Option<u32>,
        explain: bool,
    },
    /// One session as the standby of a folder, or one after another.
    Standby {
        dir: &'a str,
        from: &'a str,
        pages: u64,
        log_blocks: Option<u64>,
        checkpoint_mb: u64,
        workers: u64,
        timeout: u64,
        keep: bool,
        serve: Option<&'a str>,
        readers: Option<u64>,
        forget_unreached: bool,
        uncompared: bool,
        listen: Option<&'a str>,
        window: Option<u32>,
        followers: Option<&'a str>,
        explain: bool,
    },
    /// A standby to a primary, once its rank was compared with those of its peers.
    Takeover {
        dir: &'a str,
        peers: Peers<'a>,
        explain: bool,
    },
    /// The database of a new primary, laid out in a folder that has none.
    New {
        dir: &'a str,
        pages: u64,
        log_blocks: Option<u64>,
        explain: bool,
    },
    /// Transactions of JSON lines into the log of a folder's primary.
    Commit {
        dir: &'a str,
        pages: Option<u64>,
        log_blocks: Option<u64>,
        batch: u64,
        skip_bad: bool,
        explain: bool,
    },
    /// A folder's primary, which commits and answers reads over HTTP, and serves its log to followers.
    Primary {
        dir: &'a str,
        serve: &'a str,
        pages: Option<u64>,
        log_blocks: Option<u64>,
        token_file: Option<&'a str>,
        connections: u64,
        commit_timeout: u64,
        listen: Option<&'a str>,
        sync: u32,
        read_for: Option<u64>,
        window: Option<u32>,
        followers: Option<&'a str>,
        timeout: u64,
        explain: bool,
    },
    /// The pages of a folder's node anew from its log.
    RebuildPages {
        dir: &'a str,
        explain: bool,
    },
    /// A transaction in doubt commits, or rolls back.
    Resolve {
        dir: &'a str,
        trans: u32,
        is_commit: bool,
        explain: bool,
    },
    /// The records of a log file or of a standby's log: from an LSN on, of one transaction, of one
    /// page.
    Dump {
        path: &'a str,
        from: u64,
        trans: Option<u32>,
        page: Option<u32>,
        explain: bool,
    },
    /// The commits of a log file or of a node's log.
    Commits {
        path: &'a str,
        explain: bool,
    },
    /// The log of a file or of a node up to an LSN.
    CutAt {
        path: &'a str,
        lsn: u64,
        explain: bool,
    },
    /// The same up to a transaction's commit record.
    CutBefore {
        path: &'a str,
        trans: u32,
        explain: bool,
    },
    /// What the committed transactions left at all keys, up to an LSN.
    Show {
        path: &'a str,
        at: Option<u64>,
        explain: bool,
    },
    /// A new generation of the log of a file or of a node.
    Begin {
        path: &'a str,
        explain: bool,
    },
    /// The log of a node that runs or of a folder's node, up to the end that it has acknowledged.
    Backup {
        from: Option<&'a str>,
        dir: Option<&'a str>,
        resume: Option<&'a str>,
        pages: Option<u32>,
        timeout: u64,
        explain: bool,
    },
    /// A node of a log file in an empty folder, up to an LSN or a transaction's commit record.
    Restore {
        path: &'a str,
        dir: &'a str,
        at: Option<u64>,
        before_commit: Option<u32>,
        log_blocks: Option<u64>,
        seals: Option<&'a str>,
        explain: bool,
    },
    /// A folder's node, taken back to an LSN of its own log.
    Rewind {
        dir: &'a str,
        lsn: u64,
        lose_commits: Option<u64>,
        explain: bool,
    },
    /// A longer log device for a folder's node.
    Grow {
        dir: &'a str,
        log_blocks: u64,
        explain: bool,
    },
    /// Whether a log file or a standby is sound, and the checksum of its log.
    Verify {
        path: &'a str,
        explain: bool,
    },
    /// What a standby's folder holds; or, up to an LSN, how a log stands there.
    Status {
        dir: &'a str,
        at: Option<u64>,
        explain: bool,
    },
    /// What the committed transactions left at a key of a node's folder, or, up to an LSN, of a log.
    Get {
        dir: &'a str,
        page: u32,
        slot: u8,
        at: Option<u64>,
        explain: bool,
    },
}
