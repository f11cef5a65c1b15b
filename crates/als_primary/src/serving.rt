/// The numbers and names of a primary's command.
#[derive(Clone, Copy, Debug)]
pub struct Serving<'a> {
    /// The folder of its database.
    pub dir: &'a str,
    /// The address at which it serves HTTP.
    pub serve: &'a str,
    /// Pages that it has to have, 1 to 4,096. None: as many as it has.
    pub pages: Option<u64>,
    /// Blocks that its log device has to have at least, 1 to 4,194,304. None: as many as it has.
    pub log_blocks: Option<u64>,
    /// The file with the token that clients send to commit. None: no token is wanted.
    pub token_file: Option<&'a str>,
    /// The connections that are served at a time, 1 to 64.
    pub connections: u64,
    /// The seconds that a transaction may wait until it is begun, 1 to 3,600.
    pub commit_timeout: u64,
    /// The address at which followers connect, `HOST:PORT`. None: nobody may follow.
    pub listen: Option<&'a str>,
    /// How many followers of different folders have to acknowledge a commit before its answer, 0 to 8.
    pub sync: u32,
    /// The seconds since `sync` followers answered for which it reads commits, 1 to 3,600.
    pub read_for: u64,
    /// The frames that a follower's session may have on their way unanswered, 1 to 64.
    pub window: u32,
    /// The seconds that a frame of a follower's session may take, at most 3,600. 0: no limit.
    pub timeout: u64,
    /// Who may follow and counts for `sync`: addresses, or blocks of them as `ADDR/BITS`. If none is named,
    /// everybody.
    pub followers: &'a [&'a str],
}
