/// What a standby does beside following one session.
#[derive(Clone, Copy, Debug)]
pub struct Service<'a> {
    /// Threads that redo pages; at least one does.
    pub workers: usize,
    /// Where its reads are answered over HTTP. None: nowhere.
    pub serve: Option<&'a str>,
    /// Threads that answer, 1 to 8.
    pub readers: u64,
    /// It follows one session after another, for ever.
    pub keep: bool,
    /// A primary that does not compare logs is followed all the same.
    pub uncompared: bool,
    /// Where followers of its own connect, as `HOST:PORT`. None: nobody may follow it.
    pub listen: Option<&'a str>,
    /// Frames that a follower's session may have without an answer, 1 to 64.
    pub window: u32,
    /// Who may follow it: addresses, or blocks of them as `ADDR/BITS`. None named: everybody.
    pub followers: &'a [&'a str],
}
