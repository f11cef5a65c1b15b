ghost use Rattle.std.specs.Prelude.{◌≡◌, Option};
ghost use Rattle.als_ckpt.specs.Regions.{first_block, next_region};

/// Where on the control device a checkpoint stands.
#[derive(Clone, Copy, Debug, PartialEq, Eq)]
pub enum Region {
    /// Blocks 1 to 160.
    First,
    /// Blocks 161 to 320.
    Second,
}

impl Region {
    /// The region that the next checkpoint is written to, where this one is published.
    pub(crate) fn next(published: Option<Region>) -> Region
        ensures { result ≡ next_region published }
    {
        match published {
            None | Some(Region::Second) => Region::First,
            Some(Region::First) => Region::Second,
        }
    }

    /// Its first block.
    pub(crate) fn first_block(self) -> u64
        ensures { result ≡ first_block self }
    {
        match self {
            Region::First => 1,
            Region::Second => 161,
        }
    }
}
