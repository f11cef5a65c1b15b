ghost use Rattle.std.specs.Prelude.{◌≡◌};
ghost use Rattle.als_wire.specs.Frames.{byte_of};

/// What a frame begins with: one byte that says what it is.
#[derive(Clone, Copy, Debug, PartialEq, Eq)]
pub enum Tag {
    /// Log bytes of an epoch.
    Data,
    /// An answer to log bytes.
    Acknowledged,
    /// The begin of a session.
    Resume,
    /// The history of the source, which answers the begin.
    Epochs,
}

impl Tag {
    /// The byte.
    pub(crate) fn byte(self) -> u8
        ensures { result ≡ byte_of self }
    {
        match self {
            Tag::Data => b'F',
            Tag::Acknowledged => b'A',
            Tag::Resume => b'Q',
            Tag::Epochs => b'E',
        }
    }
}
