ghost use Rattle.std.specs.Prelude.{◌≡◌, ◌↔◌, IsTrue};
ghost use Rattle.als_callers.specs.Members.{Admits};

use crate::row::Row;
use als_callers::Allowed;

/// The follower of a seat, as it is shown.
#[derive(Clone, Copy)]
pub struct Member {
    pub row: Row,
    /// Whether what it acknowledges counts.
    pub counts: bool,
}

impl Member {
    /// The follower with this row, where these addresses count.
    pub fn of(row: Row, allowed: &Allowed) -> Member
        ensures row { result.row ≡ row }
        ensures counts { IsTrue result.counts ↔ Admits allowed.now.blocks.items row.peer }
    {
        Member {
            row,
            counts: allowed.admits(row.peer),
        }
    }
}
