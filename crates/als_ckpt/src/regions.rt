ghost use Rattle.std.specs.Prelude.{◌≡◌, None as Nothing, Some as Held};
ghost use Rattle.als_ckpt.specs.Regions.{nothing_held, with_held, held_of};

use crate::content::Content;
use crate::region::Region;
use als_ckpt_codec::Checkpoint;
use als_past::Past;
use std::marker::Model;

/// What the two regions hold whatever a crash leaves, for clauses alone.
#[derive(Drop)]
pub(crate) struct Regions {
    first: Content,
    second: Content,
}

impl Model for Regions {
    ghost use Rattle.als_ckpt.specs.Regions.{Held, standing};

    ghost Value = { Held };

    ghost view = { λ r. record { first = standing r.first; second = standing r.second } };
}

impl Regions {
    /// No checkpoint is known to stand in either.
    pub(crate) fn unknown() -> Regions
        ensures { result ≡ nothing_held }
    {
        Regions {
            first: Content::Unknown,
            second: Content::Unknown,
        }
    }

    /// A checkpoint stands in the region that is published, where one is.
    pub(crate) fn of(published: Option<Region>, checkpoint: &Option<Checkpoint>) -> Regions
        ensures { result ≡ held_of published checkpoint.now }
    {
        let mut regions = Regions::unknown();
        match (published, checkpoint) {
            (Some(region), Some(checkpoint)) => regions.hold(region, Past::of(checkpoint)),
            _ => {}
        }
        regions
    }

    /// A region is about to be written.
    pub(crate) fn forget(&mut self, region: Region)
        ensures { self.new ≡ with_held self.old region Nothing }
    {
        match region {
            Region::First => self.first = Content::Unknown,
            Region::Second => self.second = Content::Unknown,
        }
    }

    /// A region holds a whole checkpoint.
    pub(crate) fn hold(&mut self, region: Region, checkpoint: Past<Checkpoint>)
        ensures { self.new ≡ with_held self.old region (Held checkpoint.value) }
    {
        match region {
            Region::First => self.first = Content::Whole(checkpoint),
            Region::Second => self.second = Content::Whole(checkpoint),
        }
    }
}
