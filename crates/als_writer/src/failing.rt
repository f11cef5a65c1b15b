ghost use Rattle.std.specs.Prelude.{◌≡◌, ◌==◌, [], ◌∷◌, ◌++◌, length, take, replicate};
ghost use Rattle.als_writer.specs.Failing.{nothing};

use crate::unmet::Unmet;
use als_record::{KeptImage, Key};
use std::marker::Model;

/// How many asks that do not hold a refusal shows at most.
pub const FAILING_LIMIT: usize = 8;

/// Asks that do not hold, eight at most. They are copied as they stand, so showing them takes no
/// memory.
#[derive(Clone, Copy)]
pub struct Failing {
    // The first `count` ones are shown.
    kept: [Unmet; FAILING_LIMIT],
    count: usize,
}

impl Model for Failing {
    ghost use Rattle.std.specs.Prelude.{◌≡◌, ◌≤◌, List, length, take};
    ghost use Rattle.std.proofs.Common.{sym, length-take-le};
    ghost use Rattle.als_writer.specs.declared.unmet.Unmet.{Unmet as AnyUnmet};
    ghost use Rattle.als_writer.specs.Failing.{kept_of, count_within};

    ghost Value = { List AnyUnmet };

    ghost view = { λ f. take f.count f.kept };

    // The last one: nothing is kept behind those that are shown, so they are kept in one way alone.
    ghost invariant = { λ f. (f.count ≤ 8) × (length f.kept ≡ 8)
        × (f.kept ≡ kept_of (take f.count f.kept)) };

    ghost inverse = { λ us. record { kept = kept_of us; count = length us } };

    ghost inverse_ok = { λ f h i. record {
      kept = sym h.2 i;
      count = length-take-le f.count f.kept (count_within f.count f.kept h.0 h.1) i;
    } };
}

impl Failing {
    /// None yet.
    pub fn none() -> Failing
        ensures { result ≡ [] }
    {
        Failing {
            kept: no_asks(),
            count: 0,
        }
    }

    /// Shows one more, where there are not eight.
    pub fn push(&mut self, unmet: Unmet)
        ensures { self.new ≡ take 8 (self.old ++ unmet ∷ []) }
    {
        if self.count < FAILING_LIMIT {
            self.kept[self.count] = unmet;
            self.count += 1;
        }
    }

    /// Whether none is shown.
    pub fn is_empty(&self) -> bool
        ensures { result ≡ (length self.now == 0) }
    {
        self.count == 0
    }

    /// Those that are shown, in the order in which they came.
    pub fn shown(&self) -> &[Unmet]
        ensures { result.now ≡ self.now }
    {
        &self.kept[..self.count]
    }
}

/// No ask in any place.
fn no_asks() -> [Unmet; FAILING_LIMIT]
    ensures { result ≡ replicate 8 nothing }
{
    let unmet = Unmet {
        key: Key { page: 0, slot: 0 },
        image: KeptImage::absent(),
    };
    [unmet; FAILING_LIMIT]
}
