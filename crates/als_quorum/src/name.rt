ghost use Rattle.std.specs.Prelude.{◌≡◌, ◌↔◌, IsTrue};

use crate::folder_id::FolderId;
use std::net::IpAddr;

/// By what the acknowledgements of a follower count once.
#[derive(Clone, Copy, Debug)]
pub enum Name {
    /// The id of its folder.
    Folder(FolderId),
    /// Its address, where it sent no id.
    Address(IpAddr),
}

impl Name {
    /// Whether it is another one's.
    pub(crate) fn is(self, other: Name) -> bool
        ensures { IsTrue result ↔ (self ≡ other) }
    {
        match (self, other) {
            (Name::Folder(one), Name::Folder(other)) => one.is(other),
            (Name::Address(one), Name::Address(other)) => is_same(one, other),
            _ => false,
        }
    }
}

/// Whether two addresses are the same.
fn is_same(one: IpAddr, other: IpAddr) -> bool
    ensures { IsTrue result ↔ (one ≡ other) }
{
    one == other
}
