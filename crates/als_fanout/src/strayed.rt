/// Why the file of a log is no longer the one that it was.
#[derive(Clone, Copy, Debug, PartialEq, Eq)]
pub enum Strayed {
    /// It has fewer bytes than before.
    Shrank,
    /// Its path names another file, or none.
    Replaced,
    /// It has more bytes than a log may have. It is served up to there.
    TooLong,
    /// The system does not read it.
    Unreadable,
}

impl Strayed {
    /// What happened to the file, as the end of a sentence about it.
    pub fn words(self) -> &'static str {
        match self {
            Strayed::Shrank => "shrank",
            Strayed::Replaced => "was replaced or removed",
            Strayed::TooLong => {
                "has more than 2,147,483,648 bytes, those of the largest log: it is served up to there"
            }
            Strayed::Unreadable => "can't be read",
        }
    }

    /// Whether the log goes on all the same.
    pub fn is_served(self) -> bool {
        matches!(self, Strayed::TooLong)
    }
}
