ghost use Rattle.std.specs.Prelude.{◌≡◌};
ghost use Rattle.als_folder.specs.Lengths.{shorter_part};

use crate::part::Part;

/// How many blocks each device has.
#[derive(Clone, Copy, Debug, PartialEq, Eq)]
pub struct Sizes {
    /// The log's.
    pub log: u64,
    /// The control block's and the checkpoints'.
    pub control: u64,
    /// The pages'.
    pub pages: u64,
}

impl Sizes {
    /// The first file that has fewer blocks than it needs: the control block's, the log's, or the
    /// pages'.
    pub fn shorter_than(self, needed: Sizes) -> Option<Part>
        ensures { result ≡ shorter_part self needed }
    {
        if self.control < needed.control {
            return Some(Part::Control);
        }
        if self.log < needed.log {
            return Some(Part::Log);
        }
        if self.pages < needed.pages {
            return Some(Part::Pages);
        }
        None
    }
}
