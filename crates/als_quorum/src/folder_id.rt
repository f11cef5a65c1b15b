ghost use Rattle.std.specs.Prelude.{◌≡◌, ◌↔◌, IsTrue};

/// The id of a follower's folder: 16 bytes that no two folders share, but for a folder and its copy.
#[derive(Clone, Copy, Debug)]
pub struct FolderId {
    pub bytes: [u8; 16],
}

impl FolderId {
    /// Whether it is another one's.
    pub(crate) fn is(self, other: FolderId) -> bool
        ensures { IsTrue result ↔ (self ≡ other) }
    {
        is_same(&self.bytes, &other.bytes)
    }
}

/// Whether these bytes are the others.
fn is_same(one: &[u8; 16], other: &[u8; 16]) -> bool
    ensures { IsTrue result ↔ (one.now ≡ other.now) }
{
    one.as_slice() == other.as_slice()
}
