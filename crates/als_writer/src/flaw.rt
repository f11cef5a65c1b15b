use als_record::Key;

/// Why a transaction can't be written, whatever the log has.
#[derive(Clone, Copy, Debug, PartialEq, Eq)]
pub enum Flaw {
    /// It sets no key.
    NoSet,
    /// It has more than 600 sets, or more than 600 asks.
    TooLong,
    /// It sets this key twice.
    KeyTwice { key: Key },
    /// The database has no such key: the page is at or past its page count, or the slot is above 14.
    NoSuchKey { key: Key },
}
