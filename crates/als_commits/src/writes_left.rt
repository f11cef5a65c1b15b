ghost use Rattle.std.specs.Prelude.{◌≡◌, length};
ghost use Rattle.als_commits.specs.Packing.{sizes};

use crate::head::Head;
use crate::write::Write;
use als_record::{ImageView, KeptImage};

/// Writes that are read one after another, where they lie.
#[derive(Clone, Copy)]
pub struct WritesLeft<'a> {
    pub(crate) heads: &'a [Head],
    pub(crate) values: &'a [u8],
    pub ghost packed: { sizes heads.now ≡ length values.now },
}

impl<'a> WritesLeft<'a> {
    ghost use Rattle.std.specs.Prelude.{[], ◌∷◌, MatchOption};
    ghost use Rattle.als_commits.specs.Left.{writes_left};

    /// No writes.
    pub(crate) fn none() -> WritesLeft<'a>
        ensures { writes_left result ≡ [] }
    {
        WritesLeft {
            heads: &[],
            values: &[],
        }
    }

    /// The next write, if there is one.
    pub fn next(&mut self) -> Option<Write>
        ensures { MatchOption result
            ((writes_left self.old ≡ []) × (writes_left self.new ≡ []))
            (λ w. writes_left self.old ≡ w ∷ writes_left self.new) }
    {
        let Some((head, heads)) = self.heads.split_first() else {
            return None;
        };
        let (value, values) = self.values.split_at(head.size());
        let after = if head.has_value() {
            KeptImage::of(&ImageView { bytes: Some(value) })
        } else {
            KeptImage::absent()
        };
        *self = WritesLeft { heads, values };
        Some(Write {
            key: head.key(),
            after,
        })
    }
}
